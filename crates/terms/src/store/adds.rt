// The calls that add.
ghost use Rattle.std.specs.Prelude.{◌≡◌, length};
ghost use Rattle.theory.specs.Trees.{facts as facts_of};
ghost use Rattle.theory.specs.Outcomes.{answered};
ghost use Rattle.theory.specs.Store.{put, with_tree, add_leaf as leaf_added, add_node as node_added};
ghost use Rattle.terms.specs.Hash.{hashed};
ghost use Rattle.terms.specs.Memory.{cell, tree_of};
ghost use Rattle.terms.specs.Interning.{Proper, Located, Addable, room_for};
ghost use Rattle.terms.specs.Survey.{Passed};
ghost use Rattle.terms.specs.Whole.{IsWhole};

use crate::cell::Cell;
use crate::forms::{NO_FACTS, facts_of_leaf, join_facts, least_parts, takes_part, top_facts};
use crate::memory::{Entry, is_entry};
use crate::store::Store;
use maps::{put_first, seek};
use theory::{Facts, HIGHEST, Handle, Head, LONGEST, Leaf, Node, StoreFault};

impl Store<'_> {
    // The handle of a cell's term.
    fn locate(&self, hash: u32, sought: Cell) -> Option<Handle>
        requires hash { hash ≡ hashed sought.node sought.parts.now }
        requires proper { Proper self.now.trees (cell sought.node sought.parts.now) }
        ensures place { Located self.now.trees (tree_of self.now.trees (cell sought.entry.node sought.entry.parts.now)) result }
        ensures whole { IsWhole self.now }
    {
        if self.buckets.is_empty() {
            return None;
        }
        let items = &self.items[..self.used];
        let place = seek(&self.entries[..self.len], self.buckets, hash, |e| {
            is_entry(e, items, sought)
        })?;
        Some(place as u32)
    }

    // Whether there is an entry for one more term, and items for so many parts.
    fn has_room(&self, parts: usize) -> bool
        ensures { result ≡ room_for self.now parts }
    {
        self.len < self.limit && parts <= self.room - self.used
    }

    // One more entry, at the front of its bucket's chain.
    fn push(&mut self, hash: u32, own: Cell, facts: Facts) -> Handle
        requires hash { hash ≡ hashed own.node own.parts.now }
        requires addable { Addable self.old (cell own.node own.parts.now) facts }
        ensures value { result ≡ length self.old.trees }
        ensures after { self.new ≡ with_tree self.old (tree_of self.old.trees (cell own.entry.node own.entry.parts.now)) }
        ensures whole { IsWhole self.new }
    {
        let Cell { node, parts } = own;
        let len = self.len;
        let used = self.used;
        let next = put_first(self.buckets, hash, len);
        self.items[used..used + parts.len()].copy_from_slice(parts);
        self.entries[len] = Entry {
            node,
            first: used as u32,
            hash,
            next,
            facts,
        };
        self.len = len + 1;
        self.used = used + parts.len();
        len as u32
    }
}

impl Store<'_> {
    // The handle of a cell's term, which is added where it is not held yet.
    fn intern(&mut self, own: Cell, facts: Facts) -> Result<Handle, StoreFault>
        requires proper { Proper self.old.trees (cell own.node own.parts.now) }
        requires facts { facts ≡ facts_of (tree_of self.old.trees (cell own.node own.parts.now)) }
        ensures answer { (result, self.new) ≡ answered self.old (put self.old (tree_of self.old.trees (cell own.entry.node own.entry.parts.now))) }
        ensures whole { IsWhole self.new }
    {
        // handed on, so that a cell is hashed once
        let hash = own.digest();
        if let Some(term) = self.locate(hash, own) {
            return Ok(term);
        }
        if !self.has_room(own.parts.len()) {
            return Err(StoreFault::Full);
        }
        if facts.height > HIGHEST {
            return Err(StoreFault::TooHigh);
        }
        if own.parts.len() > LONGEST {
            return Err(StoreFault::TooLong);
        }
        Ok(self.push(hash, own, facts))
    }

    // Adds a leaf: refuses 2 where it is not held and there is no room.
    #[tactic(auto, unfolding(theory::specs::Store::add_leaf))]
    pub fn add_leaf(&mut self, leaf: Leaf) -> Result<Handle, StoreFault>
        ensures answer { (result, self.new) ≡ leaf_added self.old leaf }
        ensures whole { IsWhole self.new }
    {
        let own = Cell {
            node: Node::Leaf(leaf),
            parts: &[],
        };
        self.intern(own, facts_of_leaf(leaf))
    }

    // What is found of a head over parts: refuses 1 at the first handle that names nothing or part that does not fit.
    fn survey(&self, head: Head, parts: &[Handle]) -> Result<Facts, StoreFault>
        ensures answer { Passed self.now head parts.now result }
        ensures whole { IsWhole self.now }
    {
        // asked for what is known by it of the store, also where there is no part to read
        let _ = self.len();
        let mut all = NO_FACTS;
        for (k, part) in parts.iter().enumerate() {
            let e = self.entry(*part)?;
            if !takes_part(head, k, e.node) {
                return Err(StoreFault::BadPart(k));
            }
            all = join_facts(all, e.facts);
        }
        if parts.len() < least_parts(head) {
            return Err(StoreFault::BadPart(parts.len()));
        }
        Ok(top_facts(head, all))
    }

    // Adds a head over the terms at handles: refuses 1, then finds it where it is held, then refuses 2, then 3.
    pub fn add(&mut self, head: Head, parts: &[Handle]) -> Result<Handle, StoreFault>
        ensures answer { (result, self.new) ≡ node_added self.old head parts.now }
        ensures whole { IsWhole self.new }
    {
        let facts = self.survey(head, parts)?;
        let own = Cell {
            node: Node::Over(head, parts.len()),
            parts,
        };
        self.intern(own, facts)
    }
}
