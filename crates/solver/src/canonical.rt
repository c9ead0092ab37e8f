// Goals, canonical goals, questions, and why a call refuses.
mod cache;
mod canonicalizer;
pub mod compare;
mod fault;
mod forms;
mod names;
mod scratch;

ghost use Rattle.std.specs.Prelude.{◌≡◌};
ghost use Rattle.solver.specs.Parts.{term_in};
ghost use Rattle.solver.specs.Numbers.{call_number};
ghost use Rattle.solver.specs.declared.canonical.CallFault.TheVariants.{Host as in_host};
ghost use Rattle.host.specs.declared.fault.HostFault.TheVariants.{Store as in_store};

pub use canonicalizer::canonicalize_goal;
use forms::Part;
use host::HostFault;
pub use scratch::Scratch;
use theory::{Handle, StoreFault, Universe};

// A goal: an environment, a predicate value, a list of opaque pairs, and the typing mode, a tag that no walk touches.
#[derive(Clone, Copy, PartialEq, Eq)]
pub struct Goal {
    pub env: Handle,
    pub value: Handle,
    pub opaques: Handle,
    pub mode: u8,
}

impl Goal {
    // The term that stands in this part.
    fn term(self, part: Part) -> Handle
        ensures { result ≡ term_in part self }
    {
        match part {
            Part::Environment => self.env,
            Part::Value => self.value,
            Part::Opaques => self.opaques,
        }
    }
}

// A goal whose names are canonical variables, with the list of their kinds. Equal terms have one handle, so two are equal
// when largest universe, kinds, goal and mode are.
#[derive(Clone, Copy, PartialEq, Eq)]
pub struct CanonicalGoal {
    pub max_universe: Universe,
    pub kinds: Handle,
    pub goal: Goal,
}

// What was asked: the stored list of the original values, at each canonical variable's number the leaf that it stands for.
// It is not copied, so that it is answered at most once.
#[derive(Drop)]
pub struct Question {
    originals: Handle,
}

impl Question {
    pub fn originals(&self) -> Handle
        ensures { result ≡ self.now.originals }
    {
        self.originals
    }
}

#[derive(Clone, Copy)]
pub enum CallFault {
    // a host's fault, whole
    Host(HostFault),
    // 11: this part of the goal holds a canonical variable
    CanonicalPresent(Handle),
    // 13: this type variable stands in the environment
    TypeVariableInEnvironment(Handle),
    // 14: this environment stands in the value
    EnvironmentInValue(Handle),
    // 15: this leaf would be a name too many
    TooManyNames(Handle),
}

impl CallFault {
    // The number of the refusal, for the user's eyes: calls hand the fault itself on, and `u8::from` would not say what it is.
    pub fn number(self) -> u8
        ensures { result ≡ call_number self }
    {
        match self {
            CallFault::Host(fault) => fault.number(),
            CallFault::CanonicalPresent(_) => 11,
            CallFault::TypeVariableInEnvironment(_) => 13,
            CallFault::EnvironmentInValue(_) => 14,
            CallFault::TooManyNames(_) => 15,
        }
    }
}

impl From<HostFault> for CallFault {
    ghost from_gives = { λ e r. r ≡ in_host e };

    fn from(e: HostFault) -> CallFault {
        CallFault::Host(e)
    }
}

impl From<StoreFault> for CallFault {
    ghost from_gives = { λ e r. r ≡ in_host (in_store e) };

    fn from(e: StoreFault) -> CallFault {
        CallFault::Host(HostFault::Store(e))
    }
}
