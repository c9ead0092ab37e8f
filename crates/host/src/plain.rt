// A host with a count of places in place of a log, and a flat table of sub classes.
mod calls;

ghost use Rattle.std.specs.Prelude.{◌≡◌, ℕ, ◌≤◌, sum, vec_len, vec_capacity, slice_index};
ghost use Rattle.theory.specs.Limits.{most_places};
ghost use Rattle.theory.specs.declared.words.VariableSort.TheVariants.{Ty};
ghost use Rattle.host.specs.Numbers.{sort_index};

use theory::Universe;

// How many sorts of variables there are.
const SORTS: usize = 5;

// Each event takes a place: a universe opened, a variable made, two type variables joined. `counts` has how many variables
// of each sort there are, in the order of the sorts. `roots` has for each type variable the lowest variable of its sub
// class, so that a root is read at once; its memory is reserved when the host is made.
#[derive(Drop)]
pub struct PlainHost {
    places: u32,
    used: u32,
    universes: Universe,
    counts: [u32; SORTS],
    roots: Vec<u32>,
    ghost few: { places ≤ most_places },
    ghost within: { used ≤ places },
    ghost counted: { sum counts ≤ used },
    ghost types: { slice_index counts (sort_index Ty) ≡ vec_len roots },
    ghost reserved: { places ≤ vec_capacity roots },
    ghost lowest: { (k : ℕ) → slice_index roots.items k ≤ k },
}
