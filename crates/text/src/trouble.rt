// Why a line has no result.
ghost use Rattle.std.specs.Prelude.{◌≡◌, Some};
ghost use Rattle.host.specs.Numbers.{host_number};
ghost use Rattle.host.specs.declared.fault.HostFault.TheVariants.{Store as in_store};
ghost use Rattle.solver.specs.Numbers.{call_number};
ghost use Rattle.solver.specs.declared.canonical.CallFault.TheVariants.{Host as in_host};
ghost use Rattle.theory.specs.Outcomes.{store_number};
ghost use Rattle.text.specs.Troubles.{refusal};
ghost use Rattle.text.specs.declared.trouble.Trouble.TheVariants.{Refused as refused_by, Memory};

use crate::reason::Complaint;
use host::HostFault;
use solver::CallFault;
use std::alloc::{AllocError, AllocFailed};
use std::fmt;
use theory::StoreFault;

#[derive(Clone, Copy)]
pub enum Trouble {
    // the line cannot be read
    Bad(Complaint),
    // a call refuses: its fault, whole
    Refused(CallFault),
    // want of memory: it ends the program
    Memory,
}

impl From<AllocError> for Trouble {
    ghost from_gives = { λ _ r. r ≡ Memory };

    fn from(_e: AllocError) -> Trouble {
        Trouble::Memory
    }
}

impl<T: Drop> From<AllocFailed<T>> for Trouble {
    ghost from_gives = { λ _ r. r ≡ Memory };

    fn from(_e: AllocFailed<T>) -> Trouble {
        Trouble::Memory
    }
}

// Text is written into memory alone.
impl From<fmt::Error> for Trouble {
    ghost from_gives = { λ _ r. r ≡ Memory };

    fn from(_e: fmt::Error) -> Trouble {
        Trouble::Memory
    }
}

impl From<StoreFault> for Trouble {
    ghost from_gives = { λ e r. (r ≡ refused_by (in_host (in_store e))) × (refusal r ≡ Some (store_number e)) };

    fn from(fault: StoreFault) -> Trouble {
        Trouble::from(HostFault::Store(fault))
    }
}

impl From<HostFault> for Trouble {
    ghost from_gives = { λ e r. (r ≡ refused_by (in_host e)) × (refusal r ≡ Some (host_number e)) };

    fn from(fault: HostFault) -> Trouble {
        Trouble::Refused(CallFault::from(fault))
    }
}

impl From<CallFault> for Trouble {
    ghost from_gives = { λ e r. (r ≡ refused_by e) × (refusal r ≡ Some (call_number e)) };

    fn from(fault: CallFault) -> Trouble {
        Trouble::Refused(fault)
    }
}
