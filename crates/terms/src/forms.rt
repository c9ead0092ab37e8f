// What the forms of terms mean to the store: what a head takes, and what is found of a leaf and of a head over its parts.
ghost use Rattle.std.specs.Prelude.{◌≡◌, ◌≤◌};
ghost use Rattle.terms.specs.Survey.{beside, topped};
ghost use Rattle.theory.specs.Limits.{highest};
ghost use Rattle.theory.specs.Trees.{leaf, only, both, wants as wanted, least, takes, weight, opens, facts, leaf_flags, reach, var_flags, free};

use theory::{ArgSort, Facts, Flags, Head, Leaf, ListSort, Node, Sort, VarSort, Want};

fn one_part(want: Want, place: usize) -> Option<Want>
    ensures { result ≡ only want place }
{
    if place == 0 { Some(want) } else { None }
}

fn two_parts(first: Want, second: Want, place: usize) -> Option<Want>
    ensures { result ≡ both first second place }
{
    match place {
        0 => Some(first),
        1 => Some(second),
        _ => None,
    }
}

// What the head takes at the place, or none where it has no such place.
fn wants(head: Head, place: usize) -> Option<Want>
    ensures { result ≡ wanted head place }
{
    let list = Want::Of(Sort::List(ListSort::Arguments));
    let ty = Want::Of(Sort::Argument(ArgSort::Ty));
    let region = Want::Of(Sort::Argument(ArgSort::Region));
    match head {
        Head::Constructor(_) | Head::Alias(_) | Head::Function(_) => one_part(list, place),
        Head::Unevaluated(_) | Head::Predicate(_, _) => one_part(list, place),
        Head::Value(_) => one_part(ty, place),
        Head::OpaquePair => two_parts(Want::Alias, ty, place),
        Head::Goal => two_parts(
            Want::Of(Sort::List(ListSort::Environment)),
            Want::Of(Sort::Predicate),
            place,
        ),
        Head::Outlives(_) => two_parts(Want::Argument, region, place),
        Head::Equal(_) => two_parts(region, region, place),
        Head::List(s) => Some(s.element()),
    }
}

// How many parts the head has at least.
pub fn least_parts(head: Head) -> usize
    ensures { result ≡ least head }
{
    match head {
        Head::Constructor(_) | Head::Alias(_) | Head::Function(_) => 1,
        Head::Unevaluated(_) | Head::Value(_) | Head::Predicate(_, _) => 1,
        Head::OpaquePair | Head::Goal | Head::Outlives(_) | Head::Equal(_) => 2,
        Head::List(_) => 0,
    }
}

// Whether the head takes such an entry as its part at the place.
pub fn takes_part(head: Head, place: usize, part: Node) -> bool
    ensures { result ≡ takes head place part }
{
    // Not by `suits`, for which each part's sort and whether it is an alias are found first: lists took 14 in 100
    // instructions more.
    match wants(head, place) {
        None => false,
        Some(Want::Argument) => matches!(part.sort(), Sort::Argument(_)),
        Some(Want::Alias) => matches!(part, Node::Over(Head::Alias(_), _)),
        Some(Want::Of(sort)) => part.sort() == sort,
    }
}

fn flags_of_variable(sort: VarSort) -> Flags
    ensures { result.bits ≡ var_flags sort }
{
    match sort {
        VarSort::Ty => Flags::TY_VARIABLE,
        VarSort::Int => Flags::INT_VARIABLE,
        VarSort::Float => Flags::FLOAT_VARIABLE,
        VarSort::Const => Flags::CONST_VARIABLE,
    }
}

// The flags, and that it is a free region where it is a region.
fn free_if(sort: ArgSort, flags: Flags) -> Flags
    requires { flags.bits ≤ 64 }
    ensures { result.bits ≡ free sort flags.bits }
{
    match sort {
        ArgSort::Region => flags.union(Flags::FREE_REGION),
        _ => flags,
    }
}

fn flags_of_leaf(leaf: Leaf) -> Flags
    ensures { result.bits ≡ leaf_flags leaf }
{
    match leaf {
        Leaf::Variable(s, _) => flags_of_variable(s),
        Leaf::RegionVariable(_) => Flags::REGION_VARIABLE.union(Flags::FREE_REGION),
        Leaf::Parameter(a, _) => free_if(a, Flags::PARAMETER),
        Leaf::LateParameter(_) => Flags::PARAMETER.union(Flags::FREE_REGION),
        Leaf::Placeholder(a, _, _) => free_if(a, Flags::PLACEHOLDER),
        Leaf::Error(a) => free_if(a, Flags::NONE),
        Leaf::Canonical(_, _) => Flags::CANONICAL,
        Leaf::Static => Flags::FREE_REGION,
        Leaf::Erased => Flags::ERASED,
        Leaf::Bound(_, _, _) | Leaf::Kind(_) => Flags::NONE,
    }
}

fn reach_of(leaf: Leaf) -> u64
    ensures { result ≡ reach leaf }
{
    match leaf {
        Leaf::Bound(_, depth, _) => u64::from(depth) + 1,
        _ => 0,
    }
}

// What is found of no term at all.
pub const NO_FACTS: Facts = Facts {
    height: 0,
    flags: Flags::NONE,
    outer: 0,
};

// What is found of a leaf.
pub fn facts_of_leaf(x: Leaf) -> Facts
    ensures { result ≡ facts (leaf x) }
{
    Facts {
        height: 1,
        flags: flags_of_leaf(x),
        outer: reach_of(x),
    }
}

// How much higher the head stands than its parts.
pub fn weight_of(head: Head) -> u8
    ensures { result ≡ weight head }
{
    match head {
        Head::List(_) => 0,
        _ => 1,
    }
}

// How many binders the head opens over its parts.
pub fn binders_of(head: Head) -> u64
    ensures { result ≡ opens head }
{
    match head {
        Head::Function(_) | Head::Predicate(_, _) => 1,
        _ => 0,
    }
}

// What is found of two terms in a row.
pub fn join_facts(a: Facts, b: Facts) -> Facts
    ensures { result ≡ beside a b }
{
    Facts {
        height: a.height.max(b.height),
        flags: a.flags.union(b.flags),
        outer: a.outer.max(b.outer),
    }
}

// What is found of a head over a row.
pub fn top_facts(head: Head, row: Facts) -> Facts
    requires { row.height ≤ highest }
    ensures { result ≡ topped head row }
{
    Facts {
        height: weight_of(head) + row.height,
        flags: row.flags,
        outer: row.outer.saturating_sub(binders_of(head)),
    }
}
