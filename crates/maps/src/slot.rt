// One slot of a map's memory.
ghost use Rattle.std.specs.Prelude.{◌≡◌};

use crate::chain::{Link, Linked};

// A key with its value. A caller lends a slice of these, and what they hold before does not matter.
#[derive(Clone, Copy)]
pub struct Slot<K, V> {
    pub(crate) key: K,
    pub(crate) value: V,
    // the key's hash, and the pair before it in its bucket
    pub(crate) hash: u32,
    pub(crate) next: Link,
}

impl<K: Copy, V: Copy> Slot<K, V> {
    // A slot to lend.
    pub fn new(key: K, value: V) -> Slot<K, V>
        ensures { (result.key ≡ key) × (result.value ≡ value) }
    {
        Slot {
            key,
            value,
            hash: 0,
            next: Link::NONE,
        }
    }
}

impl<K, V> Linked for Slot<K, V> {
    ghost hash_of = { λ s. s.hash };

    ghost next_of = { λ s. s.next };

    fn hash(&self) -> u32 {
        self.hash
    }

    fn next(&self) -> Link {
        self.next
    }
}
