// A session: a context with the memory that its lines are read and answered with.
ghost use Rattle.std.specs.Prelude.{◌≡◌, ◌++◌, IfOk, string_bytes, codes, decimal};
ghost use Rattle.solver.specs.Numbers.{call_number};

use crate::compare;
use crate::context::{Asked, Context};
use solver::{CallFault, CanonicalGoal, Goal, Scratch};
use std::alloc::{AllocError, Global};
use terms::Store;
use text::{BadLine, Command, Letter, Printer, Reader, Trouble};
use theory::{Handle, StoreFault, Universe, VariableSort};

// The store is no field, since its memory is the caller's.
#[derive(Drop)]
pub struct Session {
    heap: Global,
    context: Context,
    scratch: Scratch,
    reader: Reader,
}

impl Session {
    // A session with a new context, whose host has this many places in its log.
    pub fn new(heap: Global, places: u32) -> Result<Session, AllocError> {
        Ok(Session {
            heap,
            context: Context::new(heap, places)?,
            scratch: Scratch::new(heap)?,
            reader: Reader::new(heap),
        })
    }

    // The answer to a line, which has this number in its script; none to a blank line or a comment.
    // A line that is refused or cannot be read leaves the context as it was: what it added to the store is cut off.
    pub fn answer(
        &mut self,
        store: &mut Store<'_>,
        line: u64,
        text: &[u8],
    ) -> Result<Option<String>, AllocError> {
        let held = store.len();
        match self.run(store, text) {
            Ok(answer) => Ok(answer),
            Err(trouble) => {
                store.cut(held);
                excuse(self.heap, line, text, trouble).map(Some)
            }
        }
    }

    // Runs a line; no answer where there is no command.
    fn run(&mut self, store: &mut Store<'_>, text: &[u8]) -> Result<Option<String>, Trouble> {
        let asked = self.context.asked_count();
        let Some(command) = self.reader.read(store, text, asked)? else {
            return Ok(None);
        };
        let mut run = Run {
            heap: self.heap,
            store,
            context: &mut self.context,
            scratch: &mut self.scratch,
        };
        run.perform(command).map(Some)
    }
}

// A line that is being answered: the context and its store, and the memory that the answer is made with.
#[derive(Drop)]
struct Run<'a, 'm> {
    heap: Global,
    store: &'a mut Store<'m>,
    context: &'a mut Context,
    scratch: &'a mut Scratch,
}

impl<'m> Run<'_, 'm> {
    // Runs a command; its answer.
    fn perform(&mut self, command: Command) -> Result<String, Trouble> {
        match command {
            Command::New => {
                self.context.clear(self.store);
                Ok(String::from_str(self.heap, "ok")?)
            }
            Command::Term(value) => self.show(value),
            Command::Var(sort, universe) => self.make(sort, universe),
            Command::Universe => self.open_universe(),
            Command::Join(a, b) => self.join(a, b),
            Command::Goal(goal) => self.goal(goal),
            Command::Compare(first, second) => self.compare(first, second),
        }
    }

    // A page of the store, on which nothing is written yet.
    fn page(&self) -> Printer<'_, 'm> {
        Printer {
            store: self.store,
            out: String::new(self.heap),
        }
    }

    fn show(&self, value: Handle) -> Result<String, Trouble> {
        let mut page = self.page();
        page.value(value)?;
        Ok(page.out)
    }

    fn open_universe(&mut self) -> Result<String, Trouble> {
        let universe = self.context.open_universe()?;
        Ok(format!(in self.heap; "{universe} ; (U)")?)
    }

    fn make(&mut self, sort: VariableSort, universe: Universe) -> Result<String, Trouble> {
        let number = self.context.make(self.store, sort, universe)?;
        let letter = Letter(sort);
        Ok(format!(in self.heap; "?{letter}{number} ; (V {letter} {universe})")?)
    }

    fn join(&mut self, a: u32, b: u32) -> Result<String, Trouble> {
        Ok(if self.context.join(a, b)? {
            format!(in self.heap; "ok ; (J ?t{a} ?t{b})")?
        } else {
            String::from_str(self.heap, "ok")?
        })
    }

    fn goal(&mut self, goal: Goal) -> Result<String, Trouble> {
        let asked = self.context.canonicalize(self.store, self.scratch, goal)?;
        let answer = self.show_asked(&asked)?;
        self.context.keep(asked)?;
        Ok(answer)
    }

    // A question that is still to be kept, with its number.
    fn show_asked(&self, asked: &Asked) -> Result<String, Trouble> {
        let mut page = self.page();
        write!(page.out, "q{} ", self.context.asked_count())?;
        page.values(asked.originals())?;
        write_goal(&mut page, asked.goal())?;
        Ok(page.out)
    }

    fn compare(&self, first: usize, second: usize) -> Result<String, Trouble> {
        // the reader lets only questions through that were asked
        let (Some(one), Some(two)) = (self.context.asked(first), self.context.asked(second)) else {
            return Err(Trouble::from(StoreFault::BadPart(first)));
        };
        let mut page = self.page();
        match solver::compare(self.store, one.goal(), two.goal())? {
            None => compare::write_pairing(&mut page, one.originals(), two.originals())?,
            Some(difference) => compare::write_difference(&mut page, difference)?,
        }
        Ok(page.out)
    }
}

// A function over a page, since to show terms can be refused.
fn write_goal(page: &mut Printer<'_, '_>, canonical: CanonicalGoal) -> Result<(), Trouble> {
    let universe = canonical.max_universe;
    let goal = canonical.goal;
    write!(page.out, " (goal {universe}")?;
    for value in [canonical.kinds, goal.env, goal.value, goal.opaques] {
        page.out.push_str(" ")?;
        page.value(value)?;
    }
    write!(page.out, " (mode {}))", goal.mode)?;
    Ok(())
}

// The answer to a line that has no result; want of memory is no answer.
fn excuse(heap: Global, line: u64, text: &[u8], trouble: Trouble) -> Result<String, AllocError> {
    match trouble {
        Trouble::Bad(complaint) => {
            let bad = BadLine {
                line,
                text,
                complaint,
            };
            format!(in heap; "{bad}")
        }
        Trouble::Refused(fault) => refused_line(heap, fault),
        Trouble::Memory => Err(AllocError),
    }
}

fn refused_line(heap: Global, fault: CallFault) -> Result<String, AllocError>
    ensures { IfOk result (λ s. string_bytes s ≡ codes "refused " ++ decimal (call_number fault)) }
{
    let number = fault.number();
    format!(in heap; "refused {number}")
}
