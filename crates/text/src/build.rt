// What a form becomes in the store, once its numbers and parts are read.
ghost use Rattle.std.specs.Prelude.{◌≡◌, Some, None, IfSome, MatchOption, is_some};
ghost use Rattle.text.specs.Forms.{form_sort, made_sort, has_numbers};
ghost use Rattle.text.specs.Widths.{Fits};

use crate::form::Form;
use crate::width::fit;
use terms::Store;
use theory::{Handle, Head, Kind, Leaf, ListSort, StoreFault};

// A leaf, or a head over the parts. No Node, in which their count would travel beside the parts themselves.
#[derive(Clone, Copy)]
pub enum Made {
    Leaf(Leaf),
    Over(Head),
}

// The last two numbers that a form or a line has read: no place asks for a third.
#[derive(Clone, Copy)]
pub struct Numbers {
    earlier: Option<u64>,
    last: Option<u64>,
}

impl Numbers {
    pub const NONE: Numbers = Numbers {
        earlier: None,
        last: None,
    };

    pub fn then(self, number: u64) -> Numbers
        ensures earlier { result.earlier ≡ self.last }
        ensures last { result.last ≡ Some number }
    {
        Numbers {
            earlier: self.last,
            last: Some(number),
        }
    }

    // The number before the last, at the width of its place.
    pub fn earlier<N: TryFrom<u64>>(self) -> Option<N>
    where
        N::Error: Drop,
        ensures { MatchOption self.earlier (result ≡ None) (λ n. Fits N.TryFrom.try_from_gives n result) }
    {
        fit(self.earlier?)
    }

    // The last number, at the width of its place.
    pub fn last<N: TryFrom<u64>>(self) -> Option<N>
    where
        N::Error: Drop,
        ensures { MatchOption self.last (result ≡ None) (λ n. Fits N.TryFrom.try_from_gives n result) }
    {
        fit(self.last?)
    }
}

// What a form makes with its numbers; nothing where one is missing or does not fit.
pub fn made_of(form: Form, numbers: Numbers) -> Option<Made>
    ensures sort { IfSome result (λ m. made_sort m ≡ form_sort form) }
    ensures there { is_some result ≡ has_numbers form numbers }
{
    Some(match form {
        Form::Constructor => Made::Over(Head::Constructor(numbers.last()?)),
        Form::Alias => Made::Over(Head::Alias(numbers.last()?)),
        Form::Function => Made::Over(Head::Function(numbers.last()?)),
        Form::Unevaluated => Made::Over(Head::Unevaluated(numbers.last()?)),
        Form::Predicate => Made::Over(Head::Predicate(numbers.earlier()?, numbers.last()?)),
        Form::Value => Made::Over(Head::Value(numbers.last()?)),
        Form::OpaquePair => Made::Over(Head::OpaquePair),
        Form::Goal => Made::Over(Head::Goal),
        Form::List(sort) => Made::Over(Head::List(sort)),
        Form::Parameter(sort) => Made::Leaf(Leaf::Parameter(sort, numbers.last()?)),
        Form::LateParameter => Made::Leaf(Leaf::LateParameter(numbers.last()?)),
        Form::Placeholder(sort) => {
            Made::Leaf(Leaf::Placeholder(sort, numbers.earlier()?, numbers.last()?))
        }
        Form::Bound(sort) => Made::Leaf(Leaf::Bound(sort, numbers.earlier()?, numbers.last()?)),
        Form::TyKind => Made::Leaf(Leaf::Kind(Kind::Ty(numbers.earlier()?, numbers.last()?))),
        Form::RegionKind => Made::Leaf(Leaf::Kind(Kind::Region(numbers.last()?))),
        Form::ConstKind => Made::Leaf(Leaf::Kind(Kind::Const(numbers.last()?))),
        Form::PlaceholderKind(sort) => Made::Leaf(Leaf::Kind(Kind::Placeholder(
            sort,
            numbers.earlier()?,
            numbers.last()?,
        ))),
    })
}

pub fn build(store: &mut Store<'_>, made: Made, parts: &[Handle]) -> Result<Handle, StoreFault> {
    match made {
        Made::Leaf(leaf) => store.add_leaf(leaf),
        Made::Over(head) if head.applies() => {
            let list = store.add(Head::List(ListSort::Arguments), parts)?;
            store.add(head, &[list])
        }
        Made::Over(head) => store.add(head, parts),
    }
}
