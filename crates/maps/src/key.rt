// What may be a key: handles of terms, numbers of type variables, placeholders, and all else that is copied, compared and
// hashed.
ghost use Rattle.std.specs.Prelude.{◌≡◌};
ghost use Rattle.maps.specs.Keys.{digest};

use crate::hasher::WordHasher;
use std::hash::{Hash, Hasher};
use theory::Universe;

// The number of a type variable.
#[derive(Clone, Copy, PartialEq, Eq, Hash)]
pub struct TypeVariable {
    pub number: u32,
}

// A placeholder's universe and number.
#[derive(Clone, Copy, PartialEq, Eq, Hash)]
pub struct Placeholder {
    pub universe: Universe,
    pub number: u32,
}

// A key's hash, as wide as an entry of an index keeps it.
pub fn digest<K: Hash>(key: &K) -> u32
    ensures { result ≡ digest K.hash_input key.now }
{
    let mut hasher = WordHasher::default();
    key.hash(&mut hasher);
    (hasher.finish() & 0xffff_ffff) as u32
}
