// One entry of a store's memory, and whether it is that of a cell.
ghost use Rattle.std.specs.Prelude.{◌≡◌, ◌+◌, ◌≤◌, length, IsTrue, ◌↔◌};
ghost use Rattle.terms.specs.Memory.{cell_of, cell};
ghost use Rattle.theory.specs.Trees.{part_count as count};

use crate::cell::Cell;
use theory::Handle;

mod entry;

pub use entry::Entry;

// Whether it is the entry of the cell.
pub(crate) fn is_entry(e: &Entry, items: &[Handle], sought: Cell) -> bool
    requires { e.now.first + count e.now.node ≤ length items.now }
    ensures { IsTrue result ↔ (cell_of items.now e.now ≡ cell sought.entry.node sought.entry.parts.now) }
{
    let first = e.first as usize;
    e.node == sought.node && &items[first..first + e.node.count()] == sought.parts
}
