// The calls that read.
ghost use Rattle.std.specs.Prelude.{◌≡◌, Ok, Err, MatchResult};
ghost use Rattle.theory.specs.Store.{get as read, part as part_at, parts_at, facts_at, sort_at};
ghost use Rattle.terms.specs.Whole.{IsWhole};
ghost use Rattle.terms.specs.Reads.{ReadAt, Reads, same_at};

use crate::memory::Entry;
use crate::store::Store;
use theory::{Facts, Handle, Node, Sort, StoreFault};

// The entry at a handle.
fn entry_at(entries: &[Entry], term: Handle) -> Result<Entry, StoreFault>
    ensures { ReadAt entries.now term result }
{
    entries
        .get(term as usize)
        .copied()
        .ok_or(StoreFault::NoSuch(term))
}

impl Store<'_> {
    // The entry at a handle, by what it says of its term.
    pub(crate) fn entry(&self, term: Handle) -> Result<Entry, StoreFault>
        ensures reads { Reads self.now.trees term result }
        ensures whole { IsWhole self.now }
    {
        entry_at(&self.entries[..self.len], term)
    }

    // The form of a term, with the number of its parts.
    pub fn get(&self, term: Handle) -> Result<Node, StoreFault>
        ensures answer { result ≡ read self.now.trees term }
        ensures whole { IsWhole self.now }
    {
        Ok(self.entry(term)?.node)
    }

    // The parts of a term, in order: the elements of a list, the argument list of a constructor.
    pub fn parts(&self, term: Handle) -> Result<&[Handle], StoreFault>
        ensures answer { MatchResult result (λ parts. Ok parts.now ≡ parts_at self.now.trees term) (λ fault. Err fault ≡ parts_at self.now.trees term) }
        ensures whole { IsWhole self.now }
    {
        let e = entry_at(&self.entries[..self.len], term)?;
        let first = e.first as usize;
        Ok(&self.items[first..first + e.node.count()])
    }

    // The part of a term at a place.
    #[tactic(auto, using(crate::proofs::Reading::part_refused))]
    pub fn part(&self, term: Handle, place: usize) -> Result<Handle, StoreFault>
        ensures answer { result ≡ part_at self.now.trees term place }
        ensures whole { IsWhole self.now }
    {
        let parts = self.parts(term)?;
        parts.get(place).copied().ok_or(StoreFault::BadPart(place))
    }

    // The height of a term, its flags and its outermost bound depth.
    pub fn facts(&self, term: Handle) -> Result<Facts, StoreFault>
        ensures answer { result ≡ facts_at self.now.trees term }
        ensures whole { IsWhole self.now }
    {
        Ok(self.entry(term)?.facts)
    }

    // The sort of a term.
    pub fn sort(&self, term: Handle) -> Result<Sort, StoreFault>
        ensures answer { result ≡ sort_at self.now.trees term }
        ensures whole { IsWhole self.now }
    {
        Ok(self.entry(term)?.node.sort())
    }
}

impl Store<'_> {
    // Whether two handles name equal terms. Equal terms have one handle, so this is whether they are one.
    pub fn is_same(&self, a: Handle, b: Handle) -> Result<bool, StoreFault>
        ensures answer { result ≡ same_at self.now.trees a b }
        ensures whole { IsWhole self.now }
    {
        self.entry(a)?;
        self.entry(b)?;
        Ok(a == b)
    }
}
