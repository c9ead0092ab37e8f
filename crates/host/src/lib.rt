// A host on which universes are opened, variables made and sub classes joined.
#![tactic(auto)]

mod fault;
mod plain;

pub use fault::HostFault;
pub use plain::PlainHost;
