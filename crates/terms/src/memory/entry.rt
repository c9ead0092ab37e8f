// An entry.
use crate::forms::NO_FACTS;
use maps::{Link, Linked};
use theory::{Facts, Leaf, Node, VarSort};

// What a store keeps of a term. A caller lends a slice of these, all vacant or left from an earlier store.
#[derive(Clone, Copy)]
pub struct Entry {
    pub(crate) node: Node,
    // where its parts stand in the items
    pub(crate) first: u32,
    pub(crate) hash: u32,
    // the entry before it in its bucket
    pub(crate) next: Link,
    pub(crate) facts: Facts,
}

impl Entry {
    pub const VACANT: Entry = Entry {
        node: Node::Leaf(Leaf::Variable(VarSort::Ty, 0)),
        first: 0,
        hash: 0,
        next: Link::NONE,
        facts: NO_FACTS,
    };
}

impl Linked for Entry {
    ghost hash_of = { λ e. e.hash };

    ghost next_of = { λ e. e.next };

    fn hash(&self) -> u32 {
        self.hash
    }

    fn next(&self) -> Link {
        self.next
    }
}
