// Scripts: runs the commands of lines in the text form, one context at a time, and words the answers.
#![tactic(auto)]

mod compare;
mod context;
mod session;

pub use session::Session;
