// Tables for one call. Their memory is reserved when they are made, and no call allocates.
ghost use Rattle.std.specs.Prelude.{◌≡◌, [], ◌∷◌, ◌++◌, OnOk, OnErr};

use crate::canonical::cache::Cache;
use crate::canonical::names::{Name, Names};
use std::alloc::{AllocError, Global};
use std::ops::Range;
use terms::Store;
use theory::{Handle, Head, ListSort, StoreFault};

// Terms that are open at once: a term of the greatest height opens itself, and every second one is a list.
const MOST_OPEN: usize = 128;

// Rewritten parts that wait at once: those of each list that can be open, and two of each other term.
const MOST_WAITING: usize = 16_640;

// A term that is open: the places of its parts that are still to be rewritten, and where the rewritten ones begin among the
// waiting terms.
#[derive(Drop)]
pub struct Open {
    pub term: Handle,
    pub head: Head,
    pub places: Range<usize>,
    pub base: usize,
}

// The tables of a canonicalizer.
#[derive(Drop)]
pub struct Scratch {
    pub(super) cache: Cache,
    pub(super) opened: Vec<Open>,
    pub(super) waiting: Vec<Handle>,
    pub(super) names: Names,
}

impl Scratch {
    pub fn new(heap: Global) -> Result<Scratch, AllocError> {
        let cache = Cache::new(heap)?;
        let opened = Vec::with_capacity(heap, MOST_OPEN)?;
        let waiting = Vec::with_capacity(heap, MOST_WAITING)?;
        let names = Names::new(heap)?;
        Ok(Scratch {
            cache,
            opened,
            waiting,
            names,
        })
    }

    // Adds a list that has for each name, in order, what is made of it.
    pub(super) fn add_list<F: Fn(&mut Store, Name) -> Result<Handle, StoreFault>>(
        &mut self,
        store: &mut Store,
        sort: ListSort,
        element: F,
    ) -> Result<Handle, StoreFault>
        requires { F.IsAlwaysCallable element }
    {
        let Scratch { names, waiting, .. } = self;
        waiting.clear();
        for name in names.as_slice() {
            let x = element(store, *name)?;
            put_reserved(waiting, x)?;
        }
        store.add(Head::List(sort), waiting.as_slice())
    }
}

// Adds an element where there is memory for it: no term of a height that a store takes needs more than is reserved.
pub fn put_reserved<T: Drop>(stack: &mut Vec<T>, x: T) -> Result<(), StoreFault>
    ensures ok { OnOk result (stack.new.items ≡ stack.old.items ++ x ∷ []) }
    ensures err { OnErr result (stack.new.items ≡ stack.old.items) }
{
    if stack.len() >= stack.capacity() {
        return Err(StoreFault::TooHigh);
    }
    stack.push_reserved(x);
    Ok(())
}
