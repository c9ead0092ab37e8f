// The words that code and specifications share: sorts, kinds, leaves, heads, the faults of a store, and the limits.
// The definitions in specs/ speak of these same types, so that no translation stands between a contract and its meaning.
#![tactic(auto)]

mod laws;
mod limits;
mod sorts;
mod words;

pub use laws::handles_last;
pub use limits::{
    HIGHEST, LONGEST, MOST_ENTRIES, MOST_ITEMS, MOST_LEVELS, MOST_MARKS, MOST_NAMES, MOST_PLACES,
};
pub use words::{
    ArgSort, Facts, Flags, Handle, Head, Kind, Leaf, ListSort, Node, Sort, StoreFault, Universe,
    VarSort, VariableSort, Want,
};
