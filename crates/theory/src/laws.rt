// Laws of the definitions, each named by the contract of a function so that its proof is asked for.
ghost use Rattle.theory.specs.Store.{HandlesLast};

// A handle means one tree for ever, and a store that was only added to can be cut back to what it was.
pub fn handles_last()
    ensures { HandlesLast }
{}
