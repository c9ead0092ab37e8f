// A store is made over memory that the caller lends.
ghost use Rattle.std.specs.Prelude.{◌≡◌, length};
ghost use Rattle.terms.specs.Whole.{IsWhole};
ghost use Rattle.terms.specs.Means.{empty};

use crate::memory::Entry;
use crate::store::Store;
use maps::limit_of;
use theory::{Handle, MOST_ITEMS};

impl<'a> Store<'a> {
    // A store that holds nothing. What the slices held before does not matter.
    pub fn new(
        entries: &'a mut [Entry],
        buckets: &'a mut [u32],
        items: &'a mut [Handle],
    ) -> Store<'a>
        ensures held { result ≡ empty (length entries.old) (length buckets.old) (length items.old) }
        ensures whole { IsWhole result }
    {
        buckets.fill(0);
        let limit = limit_of(entries.len(), buckets.len());
        let room = items.len().min(MOST_ITEMS);
        Store {
            entries,
            buckets,
            items,
            len: 0,
            used: 0,
            limit,
            room,
        }
    }
}

impl Store<'_> {
    // How many terms are held.
    pub fn len(&self) -> usize
        ensures count { result ≡ length self.now.trees }
        ensures whole { IsWhole self.now }
    {
        self.len
    }
}
