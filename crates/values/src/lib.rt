// Foldable values: a list of root terms, and a rest that no walk touches.
#![tactic(auto)]

mod forms;
mod value;

pub use forms::State;
pub use value::{Foldable, put_root};
