// A map in memory that the caller lends. It never allocates.
mod calls;
mod makes;

use crate::slot::Slot;
use std::marker::Model;

// Lent memory, so slices with the length in use beside them stand here, and no Vec: a map never allocates.
#[derive(Drop)]
pub struct Map<'a, K, V> {
    slots: &'a mut [Slot<K, V>],
    buckets: &'a mut [u32],
    // how many slots are in use, and how many may be
    len: usize,
    limit: usize,
}

impl<'a, K, V> Model for Map<'a, K, V> {
    ghost use Rattle.std.specs.Prelude.{take};
    ghost use Rattle.maps.specs.Pairs.{Table};

    ghost Value = { Table K V };

    ghost use Rattle.maps.specs.Means.{table, IsIndexed};

    ghost view = { λ m. table (take m.len m.slots.now) m.limit };

    ghost invariant = { λ m. IsIndexed m.slots.now m.buckets.now m.len m.limit };
}
