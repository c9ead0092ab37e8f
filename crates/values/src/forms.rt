// The forms of foldable values: terms alone, and a state over any value.
ghost use Rattle.std.specs.Prelude.{◌≡◌, ◌∷◌, drop, slice_index};
ghost use Rattle.std.proofs.Common.{rules};

use crate::value::Foldable;
use theory::{Handle, StoreFault};

// The most roots that a value is walked with.
const MOST_ROOTS: usize = 65_535;

// Terms alone: one is a type, a region, a constant, a predicate, an environment or a list; two are a goal's environment and
// predicate.
impl<const N: usize> Foldable for [Handle; N] {
    ghost roots = { λ x. x };

    ghost rebuilt = { λ x rs. rs };

    ghost same = { Prim.search rules };

    ghost given = { Prim.search rules };

    ghost last = { Prim.search rules };

    fn count(&self) -> Result<usize, StoreFault> {
        if N <= MOST_ROOTS {
            Ok(N)
        } else {
            Err(StoreFault::TooLong)
        }
    }

    fn root(&self, k: usize) -> Result<Handle, StoreFault> {
        self.get(k).copied().ok_or(StoreFault::BadPart(k))
    }

    fn set(&mut self, k: usize, term: Handle) {
        if k < N {
            self[k] = term;
        }
    }
}

// The values of variables, a stored list, before those of what is held.
#[derive(Drop)]
pub struct State<T> {
    pub values: Handle,
    pub held: T,
}

impl<T: Foldable> Foldable for State<T> {
    ghost roots = { λ x. x.values ∷ T.Foldable.roots x.held };

    ghost rebuilt = { λ x rs. record { values = slice_index rs 0; held = T.Foldable.rebuilt x.held (drop 1 rs) } };

    ghost same = { Prim.search rules };

    ghost given = { Prim.search rules };

    ghost last = { Prim.search rules };

    fn count(&self) -> Result<usize, StoreFault> {
        let n = self.held.count()?;
        if n < MOST_ROOTS {
            Ok(n + 1)
        } else {
            Err(StoreFault::TooLong)
        }
    }

    fn root(&self, k: usize) -> Result<Handle, StoreFault> {
        if k == 0 {
            return Ok(self.values);
        }
        self.held.root(k - 1).map_err(|_| StoreFault::BadPart(k))
    }

    fn set(&mut self, k: usize, term: Handle) {
        if k == 0 {
            self.values = term;
        } else {
            self.held.set(k - 1, term);
        }
    }
}
