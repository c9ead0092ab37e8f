// The reader: takes a line in one pass and adds its terms to the store. The open forms stand on a stack of its own, since a
// line may nest as deep as it is long.
use crate::build::{Made, Numbers, build, made_of};
use crate::form::{Form, Open, Place, Verb};
use crate::letter::Letter;
use crate::lex::{self, Mark, Span, Token, Tokens, WordFault};
use crate::reason::{Complaint, Reason};
use crate::trouble::Trouble;
use solver::Goal;
use std::alloc::Global;
use terms::Store;
use theory::{Handle, Leaf, Sort, StoreFault, Universe, VarSort, VariableSort};

// A line that was read.
#[derive(Clone, Copy)]
pub enum Command {
    New,
    Term(Handle),
    Var(VariableSort, Universe),
    Universe,
    Join(u32, u32),
    Goal(Goal),
    Compare(usize, usize),
}

// What is wrong, with the place where it is.
fn located<T>(span: Span, outcome: Result<T, Reason>) -> Result<T, Trouble> {
    outcome.map_err(|reason| Trouble::Bad(Complaint { span, reason }))
}

// A line or a form that is open: where its first token lies, where its parts begin on the stack, how many of its places
// are filled, and the letter and the numbers among them.
#[derive(Clone, Copy)]
struct Frame {
    open: Open,
    span: Span,
    first: usize,
    filled: usize,
    letter: Option<VariableSort>,
    numbers: Numbers,
}

impl Frame {
    fn new(open: Open, span: Span, first: usize) -> Frame {
        Frame {
            open,
            span,
            first,
            filled: 0,
            letter: None,
            numbers: Numbers::NONE,
        }
    }

    // The next place.
    fn place(&self) -> Result<Place, Reason> {
        let place = self.open.places().at(self.filled);
        place.ok_or(Reason::TooMany(self.filled))
    }

    // Whether the next place takes a value of a sort.
    fn admit(&self, sort: Sort, is_alias: bool) -> Result<(), Reason> {
        let place = self.place()?;
        if place.takes(sort, is_alias) {
            Ok(())
        } else {
            Err(Reason::Misplaced(sort, place))
        }
    }

    // Whether every place that has to be filled is.
    fn complete(&self) -> Result<(), Reason> {
        if self.filled < self.open.places().least() {
            Err(self.too_few())
        } else {
            Ok(())
        }
    }

    // Why nothing is made of too few fields.
    fn too_few(&self) -> Reason {
        Reason::TooFew(self.filled, self.open.places().least())
    }
}

// The command or form that has a token's name; what is missing, where the token is no word.
fn named<'t, T: TryFrom<&'t [u8], Error = Reason>>(
    token: Token<'t>,
    missing: Reason,
) -> Result<T, Reason> {
    if token.mark == Mark::Word {
        T::try_from(token.word)
    } else {
        Err(missing)
    }
}

// What a word fills a place with.
#[derive(Clone, Copy)]
enum Field {
    Number(u64),
    Letter(VariableSort),
    Leaf(Leaf),
}

// The number of a type variable.
fn type_variable(word: &[u8]) -> Result<u64, WordFault> {
    match lex::leaf(word)? {
        Leaf::Variable(VarSort::Ty, n) => Ok(u64::from(n)),
        _ => Err(WordFault::Unknown),
    }
}

// The letter that a word is.
fn letter(word: &[u8]) -> Result<VariableSort, WordFault> {
    match word {
        [b] => Ok(Letter::try_from(*b)?.0),
        _ => Err(WordFault::Unknown),
    }
}

// The number of a question, of which so many are asked.
fn question(word: &[u8], asked: usize) -> Result<u64, Reason> {
    let number = lex::question(word).map_err(|fault| Reason::of(fault, Place::Question))?;
    if number < asked as u64 {
        Ok(number)
    } else {
        Err(Reason::UnknownQuestion)
    }
}

// The leaf that a word is, at a place that takes terms.
fn leaf(word: &[u8], place: Place) -> Result<Leaf, Reason> {
    match lex::leaf(word) {
        Ok(leaf) => Ok(leaf),
        Err(WordFault::TooLarge(limit)) => Err(Reason::TooLarge(limit)),
        Err(WordFault::Unknown) if lex::is_number(word) => Err(Reason::NumberMisplaced(place)),
        Err(WordFault::Unknown) => Err(Reason::UnknownWord),
    }
}

// What a word says at a place.
fn field_of(word: &[u8], place: Place, asked: usize) -> Result<Field, Reason> {
    let read = match place {
        Place::Number(limit) => lex::number(word, limit).map(Field::Number),
        Place::TypeVariable => type_variable(word).map(Field::Number),
        Place::Letter => letter(word).map(Field::Letter),
        Place::Question => return question(word, asked).map(Field::Number),
        Place::Term(_) | Place::AnyValue => return leaf(word, place).map(Field::Leaf),
    };
    read.map_err(|fault| Reason::of(fault, place))
}

// A line that is being read into a store.
#[derive(Drop)]
struct Line<'a, 'm> {
    store: &'a mut Store<'m>,
    outer: &'a mut Vec<Frame>,
    parts: &'a mut Vec<Handle>,
    // how many questions there are
    asked: usize,
    top: Frame,
    // the first refusal of the store: reading goes on, since a line that cannot be read is bad before all else
    accepted: Result<(), StoreFault>,
}

impl Line<'_, '_> {
    // Opens a form, if it may stand where it does.
    fn open(&mut self, span: Span, head: Option<Token<'_>>) -> Result<(), Trouble> {
        let head = located(span, head.ok_or(Reason::NoClose))?;
        let form: Form = located(head.span, named(head, Reason::NoHead))?;
        located(span, self.top.admit(form.sort(), form.is_alias()))?;
        self.outer.push(self.top)?;
        self.top = Frame::new(Open::Form(form), span, self.parts.len());
        Ok(())
    }

    // Closes the form on top: its parts give way to the term that they make.
    fn close(&mut self, span: Span) -> Result<(), Trouble> {
        let frame = self.top;
        let Open::Form(form) = frame.open else {
            return located(span, Err(Reason::NoOpen));
        };
        located(span, frame.complete())?;
        let made = located(span, made_of(form, frame.numbers).ok_or(frame.too_few()))?;
        let term = self.term(made, frame.first);
        self.parts.truncate(frame.first);
        if let Some(outer) = self.outer.pop() {
            self.top = outer;
        }
        self.put(term)
    }

    // The term of what a form makes, with the parts that stand on the stack from a place on.
    fn term(&mut self, made: Made, first: usize) -> Result<Handle, StoreFault> {
        self.accepted?;
        let parts = self.parts.get(first..).ok_or(StoreFault::BadPart(first))?;
        build(self.store, made, parts)
    }

    // The term of a leaf.
    fn leaf(&mut self, leaf: Leaf) -> Result<Handle, StoreFault> {
        self.accepted?;
        self.store.add_leaf(leaf)
    }

    // Fills a place of the top with a term, or notes why there is none.
    fn put(&mut self, term: Result<Handle, StoreFault>) -> Result<(), Trouble> {
        match term {
            Ok(handle) => self.parts.push(handle)?,
            Err(fault) => self.accepted = Err(fault),
        }
        self.top.filled = self.top.filled.saturating_add(1);
        Ok(())
    }

    fn word(&mut self, token: Token<'_>) -> Result<(), Trouble> {
        let place = located(token.span, self.top.place())?;
        match located(token.span, field_of(token.word, place, self.asked))? {
            Field::Number(number) => self.top.numbers = self.top.numbers.then(number),
            Field::Letter(letter) => self.top.letter = Some(letter),
            Field::Leaf(leaf) => {
                located(token.span, self.top.admit(leaf.sort(), false))?;
                let term = self.leaf(leaf);
                return self.put(term);
            }
        }
        self.top.filled = self.top.filled.saturating_add(1);
        Ok(())
    }

    // The command of a line that is read to its end.
    fn finish(&self, verb: Verb, end: Span) -> Result<Command, Trouble> {
        if let Open::Form(_) = self.top.open {
            return located(self.top.span, Err(Reason::NoClose));
        }
        located(end, self.top.complete())?;
        self.accepted?;
        located(end, self.command(verb).ok_or(self.top.too_few()))
    }

    // The command of what was read; none where a field is missing.
    fn command(&self, verb: Verb) -> Option<Command> {
        let numbers = self.top.numbers;
        Some(match verb {
            Verb::New => Command::New,
            Verb::Universe => Command::Universe,
            Verb::Term => Command::Term(self.part(0)?),
            Verb::Var => Command::Var(self.top.letter?, numbers.last()?),
            Verb::Join => Command::Join(numbers.earlier()?, numbers.last()?),
            Verb::Compare => Command::Compare(numbers.earlier()?, numbers.last()?),
            Verb::Goal => Command::Goal(Goal {
                env: self.part(0)?,
                value: self.part(1)?,
                opaques: self.part(2)?,
                mode: numbers.last()?,
            }),
        })
    }

    fn part(&self, place: usize) -> Option<Handle> {
        self.parts.get(place).copied()
    }
}

// The stacks of a reader keep their memory from line to line.
#[derive(Drop)]
pub struct Reader {
    outer: Vec<Frame>,
    parts: Vec<Handle>,
}

impl Reader {
    pub fn new(heap: Global) -> Reader {
        Reader {
            outer: Vec::new(heap),
            parts: Vec::new(heap),
        }
    }

    // Reads a line, of which it adds the terms to the store; none is blank or a comment. `asked` counts the questions.
    pub fn read(
        &mut self,
        store: &mut Store<'_>,
        text: &[u8],
        asked: usize,
    ) -> Result<Option<Command>, Trouble> {
        let mut tokens = Tokens::new(text);
        let Some(first) = tokens.next() else {
            return Ok(None);
        };
        let verb = located(first.span, named(first, Reason::NoCommand))?;
        self.outer.clear();
        self.parts.clear();
        let mut line = Line {
            store,
            outer: &mut self.outer,
            parts: &mut self.parts,
            asked,
            top: Frame::new(Open::Line(verb), first.span, 0),
            accepted: Ok(()),
        };
        while let Some(token) = tokens.next() {
            match token.mark {
                Mark::Open => line.open(token.span, tokens.next())?,
                Mark::Close => line.close(token.span)?,
                Mark::Word => line.word(token)?,
                Mark::Foreign => return located(token.span, Err(Reason::Foreign)),
            }
        }
        line.finish(verb, tokens.place()).map(Some)
    }
}
