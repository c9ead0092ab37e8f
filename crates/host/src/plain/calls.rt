// The calls of a host: each answers and changes it as specs/Hosts.antt says, and a refused one leaves it as it was.
ghost use Rattle.std.specs.Prelude.{◌≡◌, ℕ, ◌+◌, ◌<◌, ◌≤◌, min, IfOk, if◌then◌else◌, vec_len, vec_capacity, OnErr, OnOk, nat_eq, nat_le, nat_lt, slice_index};
ghost use Rattle.theory.specs.Limits.{most_places};
ghost use Rattle.host.specs.Hosts.{count as how_many, placed, makeable, opened, made, rooted, joined, PlaceTaken, UniverseOpened, Grown, Fresh, AfterJoin};

use crate::fault::HostFault;
use crate::plain::{PlainHost, SORTS};
use std::alloc::{AllocError, Global};
use theory::{MOST_PLACES, Universe, VariableSort};

impl PlainHost {
    // A host with no event, whose log has the places given, and at most 65,535 of them.
    pub fn new(heap: Global, places: u32) -> Result<PlainHost, AllocError>
        ensures { IfOk result (λ h. Fresh (min places most_places) h) }
    {
        let places = places.min(MOST_PLACES);
        let roots = Vec::with_capacity(heap, places as usize)?;
        Ok(PlainHost {
            places,
            used: 0,
            universes: 0,
            counts: [0; SORTS],
            roots,
        })
    }

    // Makes the host as it was when it was made.
    pub fn clear(&mut self)
        ensures { Fresh self.old.places self.new }
    {
        self.used = 0;
        self.universes = 0;
        self.counts = [0; SORTS];
        self.roots.clear();
    }

    // The current universe: the count of opened ones.
    pub fn universe(&self) -> Universe
        ensures { result ≡ self.now.universes }
    {
        self.universes
    }

    // Whether the log has no place left.
    pub fn is_full(&self) -> bool
        ensures { result ≡ nat_le self.now.places self.now.used }
    {
        self.used >= self.places
    }

    // How many variables of a sort there are: the number of the next one.
    pub fn count(&self, sort: VariableSort) -> u32
        ensures { result ≡ how_many self.now sort }
    {
        self.counts[sort as usize]
    }

    // Whether a variable has been made.
    pub fn is_known(&self, sort: VariableSort, number: u32) -> bool
        ensures { result ≡ nat_lt number (how_many self.now sort) }
    {
        number < self.count(sort)
    }

    // The lowest variable of a type variable's sub class.
    pub fn root(&self, v: u32) -> Result<u32, HostFault>
        ensures answer { result ≡ rooted self.now v }
        ensures below { IfOk result (λ n. n ≤ v) }
    {
        self.roots
            .get(v as usize)
            .copied()
            .ok_or(HostFault::UnknownVariable(VariableSort::Ty, v))
    }

    // Takes a place of the log for an event.
    fn take_place(&mut self) -> Result<(), HostFault>
        ensures answer { result ≡ placed self.old }
        ensures kept { OnErr result (self.new ≡ self.old) }
        ensures taken { OnOk result (PlaceTaken self.old self.new) }
    {
        if self.is_full() {
            return Err(HostFault::LogFull);
        }
        self.used += 1;
        Ok(())
    }

    // Opens the next universe.
    pub fn open_universe(&mut self) -> Result<Universe, HostFault>
        ensures answer { result ≡ opened self.old }
        ensures kept { OnErr result (self.new ≡ self.old) }
        ensures next { IfOk result (UniverseOpened self.old self.new) }
    {
        let next = self.universes.checked_add(1).ok_or(HostFault::LogFull)?;
        self.take_place()?;
        self.universes = next;
        Ok(next)
    }

    // Whether a variable may be made in a universe, for a caller who has more to do where it may.
    pub fn may_make(&self, universe: Universe) -> Result<(), HostFault>
        ensures { result ≡ makeable self.now universe }
    {
        if universe > self.universes {
            return Err(HostFault::UnknownUniverse(universe));
        }
        if self.is_full() {
            return Err(HostFault::LogFull);
        }
        Ok(())
    }

    // Makes a variable in an opened universe, with the next number of its sort.
    pub fn make(&mut self, sort: VariableSort, universe: Universe) -> Result<u32, HostFault>
        ensures answer { result ≡ made self.old sort universe }
        ensures kept { OnErr result (self.new ≡ self.old) }
        ensures next { OnOk result (Grown sort self.old self.new) }
    {
        self.may_make(universe)?;
        self.take_place()?;
        let at = sort as usize;
        let number = self.counts[at];
        self.counts[at] += 1;
        if sort == VariableSort::Ty {
            // a new type variable is alone in its class
            self.roots.push_reserved(number);
        }
        Ok(number)
    }

    // Joins the sub classes of two type variables: false where they are in one class already, which takes no place.
    pub fn join(&mut self, a: u32, b: u32) -> Result<bool, HostFault>
        ensures answer { result ≡ joined self.old a b }
        ensures kept { OnErr result (self.new ≡ self.old) }
        ensures next { IfOk result (AfterJoin a b self.old self.new) }
    {
        let x = self.root(a)?;
        let y = self.root(b)?;
        if x == y {
            return Ok(false);
        }
        self.take_place()?;
        relabel(&mut self.roots, x.max(y), x.min(y));
        Ok(true)
    }
}

// Puts one class under the root of another.
fn relabel(roots: &mut Vec<u32>, from: u32, to: u32)
    ensures len { vec_len roots.new ≡ vec_len roots.old }
    ensures capacity { vec_capacity roots.new ≡ vec_capacity roots.old }
    ensures places { (k : ℕ) → k < vec_len roots.old → slice_index roots.new.items k ≡ (if nat_eq (slice_index roots.old.items k) from then to else slice_index roots.old.items k) }
{
    for root in roots.iter_mut() {
        if *root == from {
            *root = to;
        }
    }
}
