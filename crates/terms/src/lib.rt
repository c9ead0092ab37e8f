// The store of terms: every term stands in it once, and a handle names it.
#![tactic(auto)]

mod cell;
mod forms;
mod memory;
mod store;

pub use memory::Entry;
pub use store::Store;
