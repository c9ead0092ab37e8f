// The text form: reads the lines of a script, prints the values of a store and words why a line cannot be read.
#![tactic(auto)]

mod build;
mod form;
mod letter;
mod lex;
mod print;
mod read;
mod reason;
mod shown;
mod trouble;
mod width;

pub use letter::{Letter, sort_letter};
pub use print::Printer;
pub use read::{Command, Reader};
pub use reason::{BadLine, Complaint};
pub use trouble::Trouble;
