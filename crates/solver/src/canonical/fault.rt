// Why canonicalizing a goal refuses.
ghost use Rattle.std.specs.Prelude.{◌≡◌};
ghost use Rattle.solver.specs.Numbers.{goal_fault};
ghost use Rattle.solver.specs.declared.canonical.fault.GoalFault.TheVariants.{Store as in_store};

use crate::canonical::CallFault;
use host::HostFault;
use theory::{Handle, StoreFault, VariableSort};

// The faults of a call that a goal can meet: its host's log is not written to. A type of its own says so of the whole walk
// with no clause. It does not stand whole inside CallFault: callers match that one's variants, and a fault of the store or an
// unknown variable would come in two forms, as the host's and as the goal's.
#[derive(Clone, Copy)]
pub enum GoalFault {
    Store(StoreFault),
    UnknownVariable(VariableSort, u32),
    CanonicalPresent(Handle),
    TypeVariableInEnvironment(Handle),
    EnvironmentInValue(Handle),
    TooManyNames(Handle),
}

impl From<StoreFault> for GoalFault {
    ghost from_gives = { λ e r. r ≡ in_store e };

    fn from(e: StoreFault) -> GoalFault {
        GoalFault::Store(e)
    }
}

impl From<GoalFault> for CallFault {
    ghost from_gives = { λ e r. r ≡ goal_fault e };

    fn from(e: GoalFault) -> CallFault {
        match e {
            GoalFault::Store(fault) => CallFault::Host(HostFault::Store(fault)),
            GoalFault::UnknownVariable(sort, number) => CallFault::Host(HostFault::UnknownVariable(
                sort, number,
            )),
            GoalFault::CanonicalPresent(term) => CallFault::CanonicalPresent(term),
            GoalFault::TypeVariableInEnvironment(term) => CallFault::TypeVariableInEnvironment(
                term,
            ),
            GoalFault::EnvironmentInValue(term) => CallFault::EnvironmentInValue(term),
            GoalFault::TooManyNames(term) => CallFault::TooManyNames(term),
        }
    }
}
