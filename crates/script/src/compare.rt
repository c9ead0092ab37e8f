// Two canonical goals side by side: how their names pair, or where they first differ, in words.
// What shows terms can be refused, which a Display cannot say, and so is a function over a page. The two sides stay two
// parameters, since only two functions take them, each where the sides have just come one by one.
use solver::Difference;
use std::fmt;
use terms::Store;
use text::{Printer, Trouble};
use theory::{ArgSort, Handle, Kind, Leaf, Node, StoreFault};

// Writes the names of two goals with one canonical goal, each beside its partner.
pub fn write_pairing(
    page: &mut Printer<'_, '_>,
    first: Handle,
    second: Handle,
) -> Result<(), Trouble> {
    let store = page.store;
    let names = store.parts(first)?;
    let partners = store.parts(second)?;
    page.out.push_str(if names.is_empty() {
        "same: no names"
    } else {
        "same:"
    })?;
    for (place, (name, partner)) in names.iter().zip(partners).enumerate() {
        page.out.push_str(if place == 0 { " " } else { ", " })?;
        page.value(*name)?;
        page.out.push_str(" ~ ")?;
        page.value(*partner)?;
    }
    Ok(())
}

// What a name of a goal is, by its kind.
#[derive(Clone, Copy)]
struct Named(Kind);

impl fmt::Display for Named {
    fn fmt<W: fmt::Write>(&self, f: &mut fmt::Formatter<W>) -> fmt::Result {
        f.write_str(match self.0 {
            Kind::Ty(_, _) => "a type variable",
            Kind::Int => "an integer variable",
            Kind::Float => "a float variable",
            Kind::Region(_) => "a region variable",
            Kind::Const(_) => "a constant variable",
            Kind::Placeholder(ArgSort::Ty, _, _) => "a type parameter or placeholder",
            Kind::Placeholder(ArgSort::Region, _, _) => "a region",
            Kind::Placeholder(ArgSort::Const, _, _) => "a constant parameter or placeholder",
        })
    }
}

// With which earlier name a type variable shares its sub class.
#[derive(Clone, Copy)]
struct Partner {
    name: u32,
    root: u32,
}

impl fmt::Display for Partner {
    fn fmt<W: fmt::Write>(&self, f: &mut fmt::Formatter<W>) -> fmt::Result {
        if self.root == self.name {
            f.write_str("no earlier name")
        } else {
            write!(f, "name {}", self.root)
        }
    }
}

// A name that is not of one kind in both goals.
#[derive(Clone, Copy)]
struct Apart {
    name: u32,
    first: Kind,
    second: Kind,
}

impl fmt::Display for Apart {
    fn fmt<W: fmt::Write>(&self, f: &mut fmt::Formatter<W>) -> fmt::Result {
        let name = self.name;
        match (self.first, self.second) {
            (Kind::Ty(_, one), Kind::Ty(_, two)) => write!(
                f,
                "name {name} shares its class with {} in the first goal and with {} in the second",
                Partner { name, root: one },
                Partner { name, root: two }
            ),
            (first, second) => write!(
                f,
                "name {name} is {} in the first goal and {} in the second",
                Named(first),
                Named(second)
            ),
        }
    }
}

fn kind_of(store: &Store<'_>, term: Handle) -> Result<Kind, StoreFault> {
    match store.get(term)? {
        Node::Leaf(Leaf::Kind(kind)) => Ok(kind),
        _ => Err(StoreFault::NoSuch(term)),
    }
}

fn write_terms(
    page: &mut Printer<'_, '_>,
    part: &str,
    first: Handle,
    second: Handle,
) -> Result<(), Trouble> {
    write!(page.out, "in the {part}, ")?;
    page.value(first)?;
    page.out.push_str(" stands against ")?;
    page.value(second)
}

// Writes where two canonical goals first differ.
pub fn write_difference(page: &mut Printer<'_, '_>, difference: Difference) -> Result<(), Trouble> {
    page.out.push_str("differ: ")?;
    match difference {
        Difference::Mode(a, b) => write!(page.out, "the typing modes are {a} and {b}")?,
        Difference::NameCount(a, b) => write!(
            page.out,
            "the first goal has {a} names and the second {b}"
        )?,
        Difference::Kind(name, a, b) => {
            let first = kind_of(page.store, a)?;
            let second = kind_of(page.store, b)?;
            write!(
                page.out,
                "{}",
                Apart {
                    name,
                    first,
                    second
                }
            )?;
        }
        Difference::Env(a, b) => write_terms(page, "environment", a, b)?,
        Difference::Value(a, b) => write_terms(page, "value", a, b)?,
        Difference::Opaques(a, b) => write_terms(page, "opaque pairs", a, b)?,
    }
    Ok(())
}
