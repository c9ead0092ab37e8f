// Walks that ask only the store: the first leaf with a flag. Types hold constants and constants hold types, through lists of
// arguments: one function walks a term and then its parts, with falling rank.
#![tactic(auto)]

mod fault;
mod flagged;

pub use fault::SubstituteFault;
pub use flagged::first_flagged;
