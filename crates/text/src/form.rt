// The grammar: the forms that stand in parentheses, the commands, and what each takes at each of its places.
ghost use Rattle.std.specs.Prelude.{◌≡◌, ◌≤◌, length};
ghost use Rattle.text.specs.Forms.{form_sort};

use crate::reason::Reason;
use theory::{ArgSort, ListSort, Sort, Want};

#[derive(Clone, Copy, PartialEq, Eq)]
pub enum Verb {
    New,
    Term,
    Var,
    Universe,
    Join,
    Goal,
    Compare,
}

// What stands in parentheses.
#[derive(Clone, Copy)]
pub enum Form {
    Constructor,
    Alias,
    Function,
    Unevaluated,
    Value,
    Parameter(ArgSort),
    LateParameter,
    Placeholder(ArgSort),
    Bound(ArgSort),
    Predicate,
    OpaquePair,
    Goal,
    List(ListSort),
    TyKind,
    RegionKind,
    ConstKind,
    PlaceholderKind(ArgSort),
}

// What is open: the line of a command, or a form.
#[derive(Clone, Copy)]
pub enum Open {
    Line(Verb),
    Form(Form),
}

// What may stand at a place.
#[derive(Clone, Copy)]
pub enum Place {
    // a number, at most this large
    Number(u64),
    Term(Want),
    // any value that a store holds by itself
    AnyValue,
    // the letter of a sort of variables
    Letter,
    TypeVariable,
    Question,
}

const NUMBER: Place = Place::Number(0xffff_ffff);

const UNIVERSE: Place = Place::Number(0xffff);

const TAG: Place = Place::Number(0xff);

const VALUE: Place = Place::Number(0xffff_ffff_ffff_ffff);

const TYPE: Place = Place::Term(Want::Of(Sort::Argument(ArgSort::Ty)));

const ENVIRONMENT: Place = Place::Term(Want::Of(Sort::List(ListSort::Environment)));

const OPAQUES: Place = Place::Term(Want::Of(Sort::List(ListSort::OpaquePairs)));

const PREDICATE: Place = Place::Term(Want::Of(Sort::Predicate));

impl TryFrom<&[u8]> for Verb {
    type Error = Reason;

    fn try_from(word: &[u8]) -> Result<Verb, Reason> {
        match word {
            b"new" => Ok(Verb::New),
            b"term" => Ok(Verb::Term),
            b"var" => Ok(Verb::Var),
            b"universe" => Ok(Verb::Universe),
            b"join" => Ok(Verb::Join),
            b"goal" => Ok(Verb::Goal),
            b"compare" => Ok(Verb::Compare),
            _ => Err(Reason::UnknownCommand),
        }
    }
}

// The forms of types, regions and constants.
fn term_form(word: &[u8]) -> Option<Form> {
    match word {
        b"c" => Some(Form::Constructor),
        b"a" => Some(Form::Alias),
        b"fn" => Some(Form::Function),
        b"u" => Some(Form::Unevaluated),
        b"v" => Some(Form::Value),
        b"tp" => Some(Form::Parameter(ArgSort::Ty)),
        b"cp" => Some(Form::Parameter(ArgSort::Const)),
        b"early" => Some(Form::Parameter(ArgSort::Region)),
        b"late" => Some(Form::LateParameter),
        b"pt" => Some(Form::Placeholder(ArgSort::Ty)),
        b"pr" => Some(Form::Placeholder(ArgSort::Region)),
        b"pc" => Some(Form::Placeholder(ArgSort::Const)),
        b"bt" => Some(Form::Bound(ArgSort::Ty)),
        b"br" => Some(Form::Bound(ArgSort::Region)),
        b"bc" => Some(Form::Bound(ArgSort::Const)),
        _ => None,
    }
}

// The forms above terms.
fn value_form(word: &[u8]) -> Option<Form> {
    match word {
        b"p" => Some(Form::Predicate),
        b"o" => Some(Form::OpaquePair),
        b"g" => Some(Form::Goal),
        b"args" => Some(Form::List(ListSort::Arguments)),
        b"env" => Some(Form::List(ListSort::Environment)),
        b"opq" => Some(Form::List(ListSort::OpaquePairs)),
        b"kinds" => Some(Form::List(ListSort::Kinds)),
        b"Ty" => Some(Form::TyKind),
        b"Region" => Some(Form::RegionKind),
        b"Const" => Some(Form::ConstKind),
        b"PTy" => Some(Form::PlaceholderKind(ArgSort::Ty)),
        b"PRegion" => Some(Form::PlaceholderKind(ArgSort::Region)),
        b"PConst" => Some(Form::PlaceholderKind(ArgSort::Const)),
        _ => None,
    }
}

// The forms of the grammar that are not read yet.
fn is_later_form(word: &[u8]) -> bool {
    matches!(
        word,
        b"state"
            | b"resp"
            | b"canon"
            | b"vals"
            | b"rcs"
            | b"outl"
            | b"eq"
            | b"goals"
            | b"goal"
            | b"mode"
    )
}

impl TryFrom<&[u8]> for Form {
    type Error = Reason;

    fn try_from(word: &[u8]) -> Result<Form, Reason> {
        match term_form(word).or(value_form(word)) {
            Some(form) => Ok(form),
            None if is_later_form(word) => Err(Reason::NotYet),
            None => Err(Reason::UnknownForm),
        }
    }
}

// The places of a line or a form: some that have to be filled, and what may follow them, as often as it likes.
#[derive(Clone, Copy)]
pub struct Places {
    first: &'static [Place],
    rest: Option<Place>,
    ghost few: { length first.now ≤ 4 },
}

impl Places {
    fn just(first: &'static [Place]) -> Places
        requires { length first.now ≤ 4 }
        ensures { result.first.now ≡ first.now }
    {
        Places { first, rest: None }
    }

    fn then(first: &'static [Place], rest: Want) -> Places
        requires { length first.now ≤ 4 }
        ensures { result.first.now ≡ first.now }
    {
        Places {
            first,
            rest: Some(Place::Term(rest)),
        }
    }

    // What stands at an index, or none behind the last place.
    pub fn at(self, index: usize) -> Option<Place> {
        self.first.get(index).copied().or(self.rest)
    }

    // How many places have to be filled.
    pub fn least(self) -> usize
        ensures count { result ≡ length self.first.now }
        ensures few { result ≤ 4 }
    {
        self.first.len()
    }
}

impl Verb {
    fn places(self) -> Places {
        match self {
            Verb::New | Verb::Universe => Places::just(&[]),
            Verb::Term => Places::just(&[Place::AnyValue]),
            Verb::Var => Places::just(&[Place::Letter, UNIVERSE]),
            Verb::Join => Places::just(&[Place::TypeVariable, Place::TypeVariable]),
            Verb::Goal => Places::just(&[TAG, ENVIRONMENT, Place::AnyValue, OPAQUES]),
            Verb::Compare => Places::just(&[Place::Question, Place::Question]),
        }
    }
}

impl Form {
    fn places(self) -> Places
        ensures { length result.first.now ≤ 2 }
    {
        match self {
            Form::Constructor | Form::Alias | Form::Function | Form::Unevaluated => Places::then(
                &[NUMBER],
                Want::Argument,
            ),
            Form::Predicate => Places::then(&[NUMBER, NUMBER], Want::Argument),
            Form::List(sort) => Places::then(&[], sort.element()),
            Form::Value => Places::just(&[TYPE, VALUE]),
            Form::Parameter(_) | Form::LateParameter => Places::just(&[NUMBER]),
            Form::Bound(_) => Places::just(&[NUMBER, NUMBER]),
            Form::Placeholder(_) | Form::PlaceholderKind(_) | Form::TyKind => Places::just(&[
                UNIVERSE, NUMBER,
            ]),
            Form::RegionKind | Form::ConstKind => Places::just(&[UNIVERSE]),
            Form::OpaquePair => Places::just(&[Place::Term(Want::Alias), TYPE]),
            Form::Goal => Places::just(&[ENVIRONMENT, PREDICATE]),
        }
    }

    // The sort of what the form makes. It is asked when the form opens, before the numbers of its head are known.
    pub fn sort(self) -> Sort
        ensures { result ≡ form_sort self }
    {
        match self {
            Form::Constructor | Form::Alias | Form::Function => Sort::Argument(ArgSort::Ty),
            Form::Unevaluated | Form::Value => Sort::Argument(ArgSort::Const),
            Form::Parameter(sort) | Form::Placeholder(sort) | Form::Bound(sort) => Sort::Argument(
                sort,
            ),
            Form::LateParameter => Sort::Argument(ArgSort::Region),
            Form::Predicate => Sort::Predicate,
            Form::OpaquePair => Sort::OpaquePair,
            Form::Goal => Sort::Goal,
            Form::List(sort) => Sort::List(sort),
            Form::TyKind | Form::RegionKind | Form::ConstKind | Form::PlaceholderKind(_) => {
                Sort::Kind
            }
        }
    }

    pub fn is_alias(self) -> bool {
        matches!(self, Form::Alias)
    }
}

impl Open {
    pub(crate) fn places(self) -> Places {
        match self {
            Open::Line(verb) => verb.places(),
            Open::Form(form) => form.places(),
        }
    }
}

impl Place {
    // Whether the place takes a value of a sort; an alias is a type that some places ask for.
    pub fn takes(self, sort: Sort, is_alias: bool) -> bool {
        match self {
            Place::Term(want) => want.suits(sort, is_alias),
            // parts of lists, as a kind or an opaque pair, do not stand alone
            Place::AnyValue => !matches!(sort, Sort::OpaquePair | Sort::Constraint | Sort::Kind),
            Place::Number(_) | Place::Letter | Place::TypeVariable | Place::Question => false,
        }
    }
}
