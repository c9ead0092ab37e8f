// Where two canonical goals first differ. What is compared comes as two parameters, as in `eq`: a struct of both sides would
// have no method, and only be taken apart.
ghost use Rattle.std.specs.Prelude.{◌≡◌, ◌≢◌, ◌<◌, ◌≤◌, length, not, ◌==◌, find, IfOk, IfSome};
ghost use Rattle.theory.specs.Limits.{longest};
ghost use Rattle.solver.specs.Sizes.{size_at};
ghost use Rattle.solver.specs.Parts.{term_in};
ghost use Rattle.solver.specs.Differences.{Apart, OfKinds, Tells, difference_in};

use crate::canonical::forms::Part;
use crate::canonical::{CanonicalGoal, Goal};
use terms::Store;
use theory::{Handle, Head, ListSort, Node, StoreFault};

// The first difference: what each has, the first one's first. Of environment, value and opaque pairs it is the two smallest
// subterms that differ, the first in walk order; where two terms differ in head or in the number of their parts, these two.
#[derive(Clone, Copy)]
pub enum Difference {
    Mode(u8, u8),
    NameCount(u32, u32),
    // the number of a name, and its two kinds
    Kind(u32, Handle, Handle),
    Env(Handle, Handle),
    Value(Handle, Handle),
    Opaques(Handle, Handle),
}

impl Difference {
    // The difference of two terms that stand in this part.
    fn in_part(part: Part, x: Handle, y: Handle) -> Difference
        ensures { result ≡ difference_in part x y }
    {
        match part {
            Part::Environment => Difference::Env(x, y),
            Part::Value => Difference::Value(x, y),
            Part::Opaques => Difference::Opaques(x, y),
        }
    }
}

// The first place at which two lists differ.
fn first_apart(xs: &[Handle], ys: &[Handle]) -> Option<usize>
    ensures { IfSome result (Apart xs.now ys.now) }
{
    xs.iter().zip(ys).position(|(x, y)| x != y)
}

// The first two parts that differ, of two terms with one head and as many parts.
fn differing_parts(
    store: &Store,
    a: Handle,
    b: Handle,
) -> Result<Option<(Handle, Handle)>, StoreFault>
    ensures apart { IfOk result (λ found. IfSome found (λ p. p.0 ≢ p.1)) }
    ensures smaller { IfOk result (λ found. IfSome found (λ p. size_at store.now.trees p.0 < size_at store.now.trees a)) }
{
    if store.get(a)? != store.get(b)? {
        return Ok(None);
    }
    let xs = store.parts(a)?;
    let ys = store.parts(b)?;
    match first_apart(xs, ys) {
        Some(place) => Ok(Some((xs[place], ys[place]))),
        None => Ok(None),
    }
}

// Of two terms that differ, the two smallest subterms that do, the first in walk order.
fn smallest(store: &Store, a: Handle, b: Handle) -> Result<(Handle, Handle), StoreFault>
    requires { a ≢ b }
    ensures { IfOk result (λ p. p.0 ≢ p.1) }
{
    let (mut x, mut y) = (a, b);
    while let Some((p, q)) = differing_parts(store, x, y)? {
        x = p;
        y = q;
    }
    Ok((x, y))
}

// The kinds of a list of kinds; refuses 1 for what is no such list.
fn kinds_of<'s>(store: &'s Store<'_>, list: Handle) -> Result<&'s [Handle], StoreFault>
    ensures { IfOk result (λ kinds. length kinds.now ≤ longest) }
{
    let Node::Over(Head::List(ListSort::Kinds), _) = store.get(list)? else {
        return Err(StoreFault::NoSuch(list));
    };
    let kinds = store.parts(list)?;
    Ok(kinds)
}

// The first difference of two lists of kinds that differ: the first kind that does, of lists of one length. Such lists have
// such a kind, since equal lists have one handle.
fn compare_kinds(store: &Store, a: Handle, b: Handle) -> Result<Difference, StoreFault>
    ensures { IfOk result OfKinds }
{
    let first = kinds_of(store, a)?;
    let second = kinds_of(store, b)?;
    if first.len() == second.len() {
        if let Some(name) = first_apart(first, second) {
            return Ok(Difference::Kind(name as u32, first[name], second[name]));
        }
    }
    Ok(Difference::NameCount(first.len() as u32, second.len() as u32))
}

// The first of the parts in which two goals have different terms.
fn differing_part(parts: &[Part], a: Goal, b: Goal) -> Option<Part>
    ensures { result ≡ find (λ p. not (term_in p a == term_in p b)) parts.now }
{
    parts
        .iter()
        .copied()
        .find(|part| a.term(*part) != b.term(*part))
}

// Where two canonical goals differ, or none where they are equal: first the typing modes, then the kinds, then environment,
// value and opaque pairs. The largest universe of each is 0. Of equal ones, name k of one is paired with name k of the other.
pub fn compare(
    store: &Store,
    a: CanonicalGoal,
    b: CanonicalGoal,
) -> Result<Option<Difference>, StoreFault>
    ensures { IfOk result (Tells a b) }
{
    if a.goal.mode != b.goal.mode {
        return Ok(Some(Difference::Mode(a.goal.mode, b.goal.mode)));
    }
    if a.kinds != b.kinds {
        return Ok(Some(compare_kinds(store, a.kinds, b.kinds)?));
    }
    let Some(part) = differing_part(&Part::ALL, a.goal, b.goal) else {
        return Ok(None);
    };
    let (x, y) = smallest(store, a.goal.term(part), b.goal.term(part))?;
    Ok(Some(Difference::in_part(part, x, y)))
}
