// Why a host refuses.
ghost use Rattle.std.specs.Prelude.{◌≡◌};
ghost use Rattle.host.specs.Numbers.{host_number};
ghost use Rattle.host.specs.declared.fault.HostFault.TheVariants.{Store as in_store};

use theory::{StoreFault, Universe, VariableSort};

#[derive(Clone, Copy)]
pub enum HostFault {
    // a store's fault, whole
    Store(StoreFault),
    // 4: no variable of this sort has this number
    UnknownVariable(VariableSort, u32),
    // 4: the universe is not opened
    UnknownUniverse(Universe),
    // 5: the log has no place for an event
    LogFull,
}

impl HostFault {
    // The number of the refusal, for the user's eyes: calls hand the fault itself on, and `u8::from` would not say what it is.
    pub fn number(self) -> u8
        ensures { result ≡ host_number self }
    {
        match self {
            HostFault::Store(fault) => fault.number(),
            HostFault::UnknownVariable(_, _) | HostFault::UnknownUniverse(_) => 4,
            HostFault::LogFull => 5,
        }
    }
}

impl From<StoreFault> for HostFault {
    ghost from_gives = { λ e r. r ≡ in_store e };

    fn from(e: StoreFault) -> HostFault {
        HostFault::Store(e)
    }
}
