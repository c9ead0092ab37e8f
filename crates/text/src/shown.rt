// What the text form writes for kinds, leaves and heads.
use crate::letter::Letter;
use std::fmt;
use theory::{ArgSort, Head, Kind, Leaf, ListSort};

// A word of the vocabulary as the text form writes it.
#[derive(Clone, Copy)]
pub struct Shown<T>(pub T);

impl fmt::Display for Shown<Kind> {
    fn fmt<W: fmt::Write>(&self, f: &mut fmt::Formatter<W>) -> fmt::Result {
        match self.0 {
            Kind::Ty(universe, root) => write!(f, "(Ty {universe} {root})"),
            Kind::Int => f.write_str("Int"),
            Kind::Float => f.write_str("Float"),
            Kind::Region(universe) => write!(f, "(Region {universe})"),
            Kind::Const(universe) => write!(f, "(Const {universe})"),
            Kind::Placeholder(ArgSort::Ty, universe, number) => write!(
                f,
                "(PTy {universe} {number})"
            ),
            Kind::Placeholder(ArgSort::Region, universe, number) => write!(
                f,
                "(PRegion {universe} {number})"
            ),
            Kind::Placeholder(ArgSort::Const, universe, number) => write!(
                f,
                "(PConst {universe} {number})"
            ),
        }
    }
}

impl fmt::Display for Shown<Leaf> {
    fn fmt<W: fmt::Write>(&self, f: &mut fmt::Formatter<W>) -> fmt::Result {
        match self.0 {
            Leaf::Variable(sort, number) => write!(f, "?{}{number}", Letter(sort.into())),
            Leaf::RegionVariable(number) => write!(f, "?r{number}"),
            Leaf::Parameter(ArgSort::Ty, number) => write!(f, "(tp {number})"),
            Leaf::Parameter(ArgSort::Region, number) => write!(f, "(early {number})"),
            Leaf::Parameter(ArgSort::Const, number) => write!(f, "(cp {number})"),
            Leaf::LateParameter(number) => write!(f, "(late {number})"),
            Leaf::Placeholder(sort, universe, number) => write!(
                f,
                "(p{} {universe} {number})",
                Letter(sort.into())
            ),
            Leaf::Bound(sort, depth, number) => write!(
                f,
                "(b{} {depth} {number})",
                Letter(sort.into())
            ),
            Leaf::Canonical(sort, number) => write!(f, "^{}{number}", Letter(sort.into())),
            Leaf::Error(sort) => write!(f, "{}err", Letter(sort.into())),
            Leaf::Static => f.write_str("static"),
            Leaf::Erased => f.write_str("erased"),
            Leaf::Kind(kind) => write!(f, "{}", Shown(kind)),
        }
    }
}

impl fmt::Display for Shown<ListSort> {
    fn fmt<W: fmt::Write>(&self, f: &mut fmt::Formatter<W>) -> fmt::Result {
        f.write_str(match self.0 {
            ListSort::Arguments => "args",
            ListSort::Environment => "env",
            ListSort::OpaquePairs => "opq",
            ListSort::Goals => "goals",
            ListSort::Constraints => "rcs",
            ListSort::Kinds => "kinds",
        })
    }
}

// The opening parenthesis of a form, its name and the numbers before its parts.
#[derive(Clone, Copy)]
pub struct Opening(pub Head);

impl fmt::Display for Opening {
    fn fmt<W: fmt::Write>(&self, f: &mut fmt::Formatter<W>) -> fmt::Result {
        match self.0 {
            Head::Constructor(number) => write!(f, "(c {number}"),
            Head::Alias(number) => write!(f, "(a {number}"),
            Head::Function(count) => write!(f, "(fn {count}"),
            Head::Unevaluated(number) => write!(f, "(u {number}"),
            Head::Predicate(number, count) => write!(f, "(p {number} {count}"),
            Head::Value(_) => f.write_str("(v"),
            Head::OpaquePair => f.write_str("(o"),
            Head::Goal => f.write_str("(g"),
            Head::Outlives(_) => f.write_str("(outl"),
            Head::Equal(_) => f.write_str("(eq"),
            Head::List(sort) => write!(f, "({}", Shown(sort)),
        }
    }
}

// What follows the parts of a form: the number that stands after them, if any, and the closing parenthesis.
#[derive(Clone, Copy)]
pub struct Closing(pub Head);

impl fmt::Display for Closing {
    fn fmt<W: fmt::Write>(&self, f: &mut fmt::Formatter<W>) -> fmt::Result {
        match self.0 {
            Head::Value(value) => write!(f, " {value})"),
            Head::Outlives(visible) | Head::Equal(visible) => write!(f, " {})", u8::from(visible)),
            _ => f.write_str(")"),
        }
    }
}
