// What a foldable value means, and putting a term at a root.
ghost use Rattle.std.specs.Prelude.{◌≡◌, ℕ, List, length, slice_set};
ghost use Rattle.values.specs.Roots.{count_of, root_at, put_at, put_answer};

use terms::Store;
use theory::{Handle, StoreFault};

// A value is known by its roots, the handles of its root terms, and by what it is with others in their place.
pub trait Foldable {
    ghost roots: { Self → List ℕ };

    ghost rebuilt: { Self → List ℕ → Self };

    // How many roots there are: refuses 3 beyond the most that a walk takes.
    fn count(&self) -> Result<usize, StoreFault>
        ensures { result ≡ count_of (roots self.now) };

    // Root k: refuses 1 outside the list.
    fn root(&self, k: usize) -> Result<Handle, StoreFault>
        ensures { result ≡ root_at (roots self.now) k };

    // Another handle at root k, and nothing else is changed; outside the list it does nothing.
    fn set(&mut self, k: usize, term: Handle)
        ensures { self.new ≡ rebuilt self.old (slice_set (roots self.old) k term) };

    ghost same: { (x : Self) → rebuilt x (roots x) ≡ x };

    ghost given: { (x : Self) (rs : List ℕ) → length rs ≡ length (roots x) → roots (rebuilt x rs) ≡ rs };

    ghost last: { (x : Self) (rs ts : List ℕ) → length rs ≡ length (roots x) → length ts ≡ length rs → rebuilt (rebuilt x rs) ts ≡ rebuilt x ts };
}

// Puts a term at root k: refuses 1 outside the list, for a handle that names nothing, or at another sort.
pub fn put_root<V: Foldable>(
    store: &Store,
    value: &mut V,
    k: usize,
    term: Handle,
) -> Result<(), StoreFault>
    ensures answer { result ≡ put_answer store.now.trees (V.Foldable.roots value.old) k term }
    ensures after { value.new ≡ put_at (V.Foldable.rebuilt value.old) (V.Foldable.roots value.old) k term result value.old }
{
    let old = store.sort(value.root(k)?)?;
    let new = store.sort(term)?;
    if old != new {
        return Err(StoreFault::BadPart(k));
    }
    value.set(k, term);
    Ok(())
}
