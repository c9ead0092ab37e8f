// The results of a walk, by handle. They are forgotten all at once, since each carries the round that it was found in.
ghost use Rattle.std.specs.Prelude.{◌≡◌, ℕ, ◌<◌, ◌≤◌, IfOk, None, slice_index_or, slice_set};
ghost use Rattle.solver.specs.Caches.{vacant, kept_in, held};

use std::alloc::{AllocError, Global};
use theory::{Handle, MOST_ENTRIES};

// A result with its round: a new round forgets all results in one step. Tried with a table of Option, of which a goal empties
// 65,535 places twice: 3 times the instructions on a script of 200 small goals, reading and printing counted.
#[derive(Clone, Copy)]
struct Cached {
    round: u32,
    result: Handle,
}

impl Cached {
    const VACANT: Cached = Cached {
        round: 0,
        result: 0,
    };
}

// The rounds are counted from 1, and no result is of a later one.
#[derive(Drop)]
pub struct Cache {
    round: u32,
    table: Vec<Cached>,
    ghost begun: { 0 < round },
    ghost past: { (t : ℕ) → (slice_index_or table.items t vacant).round ≤ round },
}

impl Cache {
    // A cache for as many terms as a store has entries.
    pub fn new(heap: Global) -> Result<Cache, AllocError>
        ensures { IfOk result (λ c. (t : ℕ) → held c.round c.table.items t ≡ None) }
    {
        let table = vec![in heap; Cached::VACANT; MOST_ENTRIES]?;
        Ok(Cache { round: 1, table })
    }

    // Forgets every result: a new round begins. The table is cleared only where all rounds are used up.
    pub fn forget(&mut self)
        ensures { (t : ℕ) → held self.new.round self.new.table.items t ≡ None }
    {
        if self.round == u32::MAX {
            self.table.fill(Cached::VACANT);
            self.round = 1;
        } else {
            self.round += 1;
        }
    }

    pub fn get(&self, term: Handle) -> Option<Handle>
        ensures { result ≡ held self.now.round self.now.table.items term }
    {
        let cached = self.table.get(term as usize)?;
        (cached.round == self.round).then_some(cached.result)
    }

    // A term beyond the table is not kept, which changes no result.
    pub fn put(&mut self, term: Handle, res: Handle)
        ensures { (self.new.round ≡ self.old.round) × (self.new.table.items ≡ slice_set self.old.table.items term (kept_in self.old.round res)) }
    {
        if let Some(cached) = self.table.get_mut(term as usize) {
            *cached = Cached {
                round: self.round,
                result: res,
            };
        }
    }
}
