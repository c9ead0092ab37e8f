// The first leaf with a flag. A term whose flags show that there is none is not entered, so that shared terms cost nothing.
ghost use Rattle.std.specs.Prelude.{◌≡◌};
ghost use Rattle.walks.specs.Flagged.{first_flagged};

use terms::Store;
use theory::{Flags, Handle, Leaf, Node, StoreFault};

// The first leaf of a term, in walk order, that has one of the flags: refuses 1 for a handle that names nothing.
pub fn first_flagged(store: &Store, term: Handle, flags: Flags) -> Result<Option<Leaf>, StoreFault>
    ensures { result ≡ first_flagged store.now.trees term flags.bits }
{
    let facts = store.facts(term)?;
    if !facts.flags.meets(flags) {
        return Ok(None);
    }
    if let Node::Leaf(leaf) = store.get(term)? {
        return Ok(Some(leaf));
    }
    let parts = store.parts(term)?;
    // By place: so a must-fail edit leaves out the first part and nothing else of the loop is another.
    for place in 0..parts.len() {
        if let Some(leaf) = first_flagged(store, parts[place], flags)? {
            return Ok(Some(leaf));
        }
    }
    Ok(None)
}
