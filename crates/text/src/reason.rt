// Why a line cannot be read, in words for whoever wrote it.
use crate::form::Place;
use crate::lex::{Span, WordFault};
use std::fmt;
use theory::{ArgSort, ListSort, Sort, Want};

#[derive(Clone, Copy)]
pub enum Reason {
    NoCommand,
    UnknownCommand,
    NoHead,
    UnknownForm,
    // a form of the grammar that is not read yet
    NotYet,
    UnknownWord,
    UnknownQuestion,
    // a character that stands in no word
    Foreign,
    // the largest number that the place takes
    TooLarge(u64),
    // how many fields there may be
    TooMany(usize),
    // how many fields there are, and how many there have to be
    TooFew(usize, usize),
    NoOpen,
    NoClose,
    // what stands there, and what the place takes
    Misplaced(Sort, Place),
    NumberMisplaced(Place),
    Wanted(Place),
}

impl Reason {
    // Why a word does not fill a place: a number that is too large, or else that the place wants something else.
    pub(crate) fn of(fault: WordFault, place: Place) -> Reason {
        match fault {
            WordFault::TooLarge(limit) => Reason::TooLarge(limit),
            WordFault::Unknown => Reason::Wanted(place),
        }
    }
}

// A reason, and where in the line what it is about lies.
#[derive(Clone, Copy)]
pub struct Complaint {
    pub span: Span,
    pub reason: Reason,
}

// A sort in words.
#[derive(Clone, Copy)]
struct Named<T>(T);

impl fmt::Display for Named<ListSort> {
    fn fmt<W: fmt::Write>(&self, f: &mut fmt::Formatter<W>) -> fmt::Result {
        f.write_str(match self.0 {
            ListSort::Arguments => "a list of arguments",
            ListSort::Environment => "an environment",
            ListSort::OpaquePairs => "a list of opaque pairs",
            ListSort::Goals => "a list of goals",
            ListSort::Constraints => "a list of region constraints",
            ListSort::Kinds => "a list of kinds",
        })
    }
}

impl fmt::Display for Named<Sort> {
    fn fmt<W: fmt::Write>(&self, f: &mut fmt::Formatter<W>) -> fmt::Result {
        match self.0 {
            Sort::Argument(ArgSort::Ty) => f.write_str("a type"),
            Sort::Argument(ArgSort::Region) => f.write_str("a region"),
            Sort::Argument(ArgSort::Const) => f.write_str("a constant"),
            Sort::Predicate => f.write_str("a predicate"),
            Sort::OpaquePair => f.write_str("an opaque pair"),
            Sort::Goal => f.write_str("a goal"),
            Sort::Constraint => f.write_str("a region constraint"),
            Sort::Kind => f.write_str("a kind"),
            Sort::List(list) => write!(f, "{}", Named(list)),
        }
    }
}

impl fmt::Display for Place {
    fn fmt<W: fmt::Write>(&self, f: &mut fmt::Formatter<W>) -> fmt::Result {
        match self {
            Place::Number(_) => f.write_str("a number"),
            Place::Term(Want::Argument) => f.write_str("a type, a region or a constant"),
            Place::Term(Want::Alias) => f.write_str("an alias type"),
            Place::Term(Want::Of(sort)) => write!(f, "{}", Named(*sort)),
            Place::AnyValue => f.write_str("a value"),
            Place::Letter => f.write_str("one of the letters t, i, f, r and c"),
            Place::TypeVariable => f.write_str("a type variable"),
            Place::Question => f.write_str("a question"),
        }
    }
}

// A word in quotes, cut where it is long.
#[derive(Clone, Copy)]
struct Quoted<'a>(&'a [u8]);

impl fmt::Display for Quoted<'_> {
    fn fmt<W: fmt::Write>(&self, f: &mut fmt::Formatter<W>) -> fmt::Result {
        f.write_str("'")?;
        for b in self.0.iter().take(40) {
            f.write_char(char::from(*b))?;
        }
        f.write_str("'")
    }
}

// The answer to a line that cannot be read, with its number in the script and its text; columns count from 1.
#[derive(Clone, Copy)]
pub struct BadLine<'a> {
    pub line: u64,
    pub text: &'a [u8],
    pub complaint: Complaint,
}

impl fmt::Display for BadLine<'_> {
    fn fmt<W: fmt::Write>(&self, f: &mut fmt::Formatter<W>) -> fmt::Result {
        let Complaint { span, reason } = self.complaint;
        let line = self.line;
        let column = span.start.saturating_add(1);
        let word = Quoted(span.bytes(self.text));
        write!(f, "bad {line}:{column}: ")?;
        match reason {
            Reason::NoCommand => f.write_str("a line begins with the name of a command"),
            Reason::UnknownCommand => write!(f, "no command has the name {word}"),
            Reason::NoHead => f.write_str(
                "the name of a form is wanted after an opening parenthesis",
            ),
            Reason::UnknownForm => write!(f, "no form has the name {word}"),
            Reason::NotYet => write!(f, "this form is not read yet: {word}"),
            Reason::UnknownWord => write!(f, "no term has the form {word}"),
            Reason::UnknownQuestion => write!(
                f,
                "no goal of this context was given the name {word}"
            ),
            Reason::Foreign => f.write_str("only ASCII characters are read outside comments"),
            Reason::TooLarge(limit) => write!(
                f,
                "the number is too large: at most {limit} is taken here"
            ),
            Reason::TooMany(most) => write!(f, "too many fields: at most {most} here"),
            Reason::TooFew(there, least) => write!(f, "too few fields: {there} of {least}"),
            Reason::NoOpen => f.write_str("this closing parenthesis closes nothing"),
            Reason::NoClose => f.write_str("this parenthesis is never closed"),
            Reason::Misplaced(sort, place) => write!(
                f,
                "{} stands where {place} is wanted",
                Named(sort)
            ),
            Reason::NumberMisplaced(place) => write!(f, "a number stands where {place} is wanted"),
            Reason::Wanted(place) => write!(f, "{place} is wanted here and not {word}"),
        }
    }
}
