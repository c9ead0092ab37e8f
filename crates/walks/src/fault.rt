// Why a substitution refuses.
ghost use Rattle.std.specs.Prelude.{◌≡◌};
ghost use Rattle.walks.specs.declared.fault.SubstituteFault.TheVariants.{Store as in_store};

use theory::{Leaf, StoreFault};

#[derive(Clone, Copy)]
pub enum SubstituteFault {
    // a store's fault, whole
    Store(StoreFault),
    // 20: this canonical variable has no value
    NoValue(Leaf),
    // 22: this canonical variable would become a term of another sort
    WrongSort(Leaf),
}

impl From<StoreFault> for SubstituteFault {
    ghost from_gives = { λ e r. r ≡ in_store e };

    fn from(e: StoreFault) -> SubstituteFault {
        SubstituteFault::Store(e)
    }
}
