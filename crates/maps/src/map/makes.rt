// A map is made over memory that the caller lends.
ghost use Rattle.std.specs.Prelude.{◌≡◌, [], length};
ghost use Rattle.maps.specs.Room.{limited};
ghost use Rattle.maps.specs.Pairs.{IsBounded};

use crate::map::Map;
use crate::room::limit_of;
use crate::slot::Slot;
use std::hash::Hash;

impl<'a, K: Copy + Eq + Hash, V: Copy> Map<'a, K, V> {
    // A map with no pair. What the slices held before does not matter.
    pub fn new(slots: &'a mut [Slot<K, V>], buckets: &'a mut [u32]) -> Map<'a, K, V>
        ensures empty { result ≡ record { pairs = []; room = limited (length slots.old) (length buckets.old) } }
        ensures few { IsBounded result }
    {
        buckets.fill(0);
        let limit = limit_of(slots.len(), buckets.len());
        Map {
            slots,
            buckets,
            len: 0,
            limit,
        }
    }
}

impl<K: Copy + Eq + Hash, V: Copy> Map<'_, K, V> {
    // How many pairs there are.
    pub fn len(&self) -> usize
        ensures count { result ≡ length self.now.pairs }
        ensures few { IsBounded self.now }
    {
        self.len
    }
}
