// The vocabulary of terms.
ghost use Rattle.std.specs.Prelude.{◌≡◌, ◌==◌, not, bit_and, bit_or};
ghost use Rattle.theory.specs.Outcomes.{store_number};

// A universe's number. Its width stands here alone.
pub type Universe = u16;

// An entry's number in a store.
pub type Handle = u32;

// The sorts of arguments.
#[derive(Clone, Copy, PartialEq, Eq, Hash)]
pub enum ArgSort {
    Ty,
    Region,
    Const,
}

// The sorts of inference variables that are no regions.
#[derive(Clone, Copy, PartialEq, Eq, Hash)]
pub enum VarSort {
    Ty,
    Int,
    Float,
    Const,
}

// The sorts of inference variables. The variables of each are numbered from 0.
#[derive(Clone, Copy, PartialEq, Eq)]
pub enum VariableSort {
    Ty,
    Int,
    Float,
    Region,
    Const,
}

// Lists, by what they hold: types, regions and constants; predicates; opaque pairs; nested goals; region constraints; kinds.
#[derive(Clone, Copy, PartialEq, Eq, Hash)]
pub enum ListSort {
    Arguments,
    Environment,
    OpaquePairs,
    Goals,
    Constraints,
    Kinds,
}

// The sorts of what a store holds.
#[derive(Clone, Copy, PartialEq, Eq)]
pub enum Sort {
    Argument(ArgSort),
    Predicate,
    OpaquePair,
    Goal,
    Constraint,
    Kind,
    List(ListSort),
}

// The kind of a canonical variable: a type variable with its universe and sub root, an integer or a float variable,
// a region or a constant variable with its universe, a placeholder with its universe and number.
#[derive(Clone, Copy, PartialEq, Eq, Hash)]
pub enum Kind {
    Ty(Universe, u32),
    Int,
    Float,
    Region(Universe),
    Const(Universe),
    Placeholder(ArgSort, Universe, u32),
}

// What has no parts. A region's parameter is an early one; a placeholder has its universe and number, a bound variable
// its depth and number.
#[derive(Clone, Copy, PartialEq, Eq, Hash)]
pub enum Leaf {
    Variable(VarSort, u32),
    RegionVariable(u32),
    Parameter(ArgSort, u32),
    LateParameter(u32),
    Placeholder(ArgSort, Universe, u32),
    Bound(ArgSort, u32, u32),
    Canonical(ArgSort, u32),
    Error(ArgSort),
    Static,
    Erased,
    Kind(Kind),
}

// What stands over parts. A constructor, an alias, a function (with its count of bound variables), an unevaluated constant
// and a predicate (number, count of bound variables) stand over one list of arguments, a constant value over its type, an
// opaque pair over an alias and its hidden type, a goal over environment and predicate, a region constraint (with its
// visibility) over two terms, a list over its elements.
#[derive(Clone, Copy, PartialEq, Eq, Hash)]
pub enum Head {
    Constructor(u32),
    Alias(u32),
    Function(u32),
    Unevaluated(u32),
    Value(u64),
    Predicate(u32, u32),
    OpaquePair,
    Goal,
    Outlives(bool),
    Equal(bool),
    List(ListSort),
}

// An entry as it is read: a leaf, or a head over a number of parts.
#[derive(Clone, Copy, PartialEq, Eq, Hash)]
pub enum Node {
    Leaf(Leaf),
    Over(Head, usize),
}

// What a head takes at a place that it has.
#[derive(Clone, Copy)]
pub enum Want {
    Argument,
    Alias,
    Of(Sort),
}

// Which kinds of leaf occur in a term, a bit for each.
#[derive(Clone, Copy, PartialEq, Eq)]
pub struct Flags {
    pub bits: u16,
}

impl Flags {
    pub const NONE: Flags = Flags { bits: 0 };

    pub const TY_VARIABLE: Flags = Flags { bits: 1 };

    pub const INT_VARIABLE: Flags = Flags { bits: 2 };

    pub const FLOAT_VARIABLE: Flags = Flags { bits: 4 };

    pub const CONST_VARIABLE: Flags = Flags { bits: 8 };

    pub const REGION_VARIABLE: Flags = Flags { bits: 16 };

    pub const PLACEHOLDER: Flags = Flags { bits: 32 };

    pub const PARAMETER: Flags = Flags { bits: 64 };
    // a region that is neither bound, canonical nor erased
    pub const FREE_REGION: Flags = Flags { bits: 128 };

    pub const ERASED: Flags = Flags { bits: 256 };

    pub const CANONICAL: Flags = Flags { bits: 512 };

    // The flags of both.
    pub fn union(self, other: Flags) -> Flags
        ensures { result.bits ≡ bit_or self.bits other.bits }
    {
        Flags {
            bits: self.bits | other.bits,
        }
    }

    // Whether they have a flag in common.
    pub fn meets(self, other: Flags) -> bool
        ensures { result ≡ not (bit_and self.bits other.bits == 0) }
    {
        self.bits & other.bits != 0
    }
}

// What is found of a term once, when it is added: its height, its flags, and how many binders must stand around it for
// none of its bound variables to leave them all.
#[derive(Clone, Copy)]
pub struct Facts {
    pub height: u8,
    pub flags: Flags,
    pub outer: u64,
}

// Why a store refuses.
#[derive(Clone, Copy, PartialEq, Eq)]
pub enum StoreFault {
    // 1: no entry has this handle
    NoSuch(Handle),
    // 1: at this place a part is missing, one too many, or of a sort that the head does not take there
    BadPart(usize),
    // 2: there is no room for a new term
    Full,
    // 3: the new term is too high
    TooHigh,
    // 3: the new list is too long
    TooLong,
}

impl StoreFault {
    // The number of the refusal, for the user's eyes: calls hand the fault itself on, and `u8::from` would not say what it is.
    pub fn number(self) -> u8
        ensures { result ≡ store_number self }
    {
        match self {
            StoreFault::NoSuch(_) | StoreFault::BadPart(_) => 1,
            StoreFault::Full => 2,
            StoreFault::TooHigh | StoreFault::TooLong => 3,
        }
    }
}
