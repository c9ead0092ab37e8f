// The one map, over memory that the caller lends, and the hash index that it stands on.
#![tactic(auto)]

mod chain;
mod hasher;
mod key;
mod map;
mod room;
mod slot;

pub use chain::{Link, Linked, put_first, seek, take_first};
pub use key::{Placeholder, TypeVariable, digest};
pub use map::Map;
pub use room::limit_of;
pub use slot::Slot;
