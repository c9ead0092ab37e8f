// Canonical goals: a goal with its names numbered in the order in which they are met, so that goals that differ only in
// their names are equal.
#![tactic(auto)]

mod canonical;

pub use canonical::compare::{Difference, compare};
pub use canonical::{CallFault, CanonicalGoal, Goal, Question, Scratch, canonicalize_goal};
