// What an entry holds of a term, and its hash, by which the store's index finds it.
ghost use Rattle.std.specs.Prelude.{◌≡◌, ◌++◌};
ghost use Rattle.std.specs.Cmp.{first_so, second_so};
ghost use Rattle.theory.specs.contracts.words.NodeHash.TheImpl.Laws.{respects_eq-law};
ghost use Rattle.terms.specs.Hash.{fed_by, parts_fed, hashed};

use maps::digest;
use std::hash::{Hash, Hasher};
use theory::{Handle, Node};

// A form over the handles of its parts.
#[derive(Clone, Copy, PartialEq, Eq)]
pub(crate) struct Cell<'a> {
    pub(crate) node: Node,
    pub(crate) parts: &'a [Handle],
}

impl Hash for Cell<'_> {
    ghost hash_input = { λ c. fed_by (c.node, c.parts.now) };

    ghost respects_eq = { λ a b e i. respects_eq-law a.node b.node (first_so _ _ e) i ++ parts_fed a.parts.now b.parts.now (second_so _ _ e) i };

    fn hash<H: Hasher>(&self, state: &mut H) {
        self.node.hash(state);
        // how many they are stands in the node, so it is not fed again, as a derive would
        Handle::hash_slice(self.parts, state);
    }
}

impl Cell<'_> {
    // No contract above the store mentions it.
    #[tactic(auto, unfolding(crate::specs::Hash::hashed, maps::specs::Keys::digest))]
    pub(crate) fn digest(self) -> u32
        ensures { result ≡ hashed self.entry.node self.entry.parts.now }
    {
        digest(&self)
    }
}
