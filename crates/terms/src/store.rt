// A store of terms in memory that the caller lends. It never allocates.
mod adds;
mod calls;
mod cuts;
mod makes;

use crate::memory::Entry;
use std::marker::Model;
use theory::Handle;

// The memory is lent, as slices with counts of what is in use: a store never allocates, so it holds no Vec or Box.
#[derive(Drop)]
pub struct Store<'a> {
    entries: &'a mut [Entry],
    buckets: &'a mut [u32],
    items: &'a mut [Handle],
    // how many entries and items are in use, and how many may be
    len: usize,
    used: usize,
    limit: usize,
    room: usize,
}

impl<'a> Model for Store<'a> {
    ghost use Rattle.theory.specs.Store.{Contents};
    ghost use Rattle.terms.specs.Stored.{coded_contents};

    ghost Value = { Contents };

    ghost coded = { coded_contents };

    ghost use Rattle.terms.specs.Means.{means, IsIntact};

    ghost view = { means };

    ghost invariant = { IsIntact };
}
