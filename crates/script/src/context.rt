// A context beside its store: a host, and the questions that were asked of it.
ghost use Rattle.std.specs.Prelude.{◌≡◌, [], ◌∷◌, ◌++◌, IfOk, is_some, min, if◌then◌else◌, vec_len, OnErr, OnOk, nat_le, nat_lt};
ghost use Rattle.theory.specs.Limits.{most_places};
ghost use Rattle.script.specs.Contexts.{made_in};
ghost use Rattle.host.specs.Hosts.{opened, joined, Fresh, UniverseOpened, Grown, AfterJoin};

use host::{HostFault, PlainHost};
use solver::{CallFault, CanonicalGoal, Goal, Question, Scratch};
use std::alloc::{AllocError, Global};
use terms::Store;
use theory::{Handle, Universe, VariableSort};

// A goal that was accepted: its question and its canonical form.
#[derive(Drop)]
pub struct Asked {
    question: Question,
    goal: CanonicalGoal,
}

impl Asked {
    // The original values, as a list of arguments.
    pub fn originals(&self) -> Handle
        ensures { result ≡ self.now.question.originals }
    {
        self.question.originals()
    }

    pub fn goal(&self) -> CanonicalGoal
        ensures { result ≡ self.now.goal }
    {
        self.goal
    }
}

// The store is no field, since it is lent from line to line: the three calls that reach it take it.
#[derive(Drop)]
pub struct Context {
    host: PlainHost,
    questions: Vec<Asked>,
}

impl Context {
    // A new context whose host has this many places in its log, and at most 65,535.
    pub fn new(heap: Global, places: u32) -> Result<Context, AllocError>
        ensures host { IfOk result (λ c. Fresh (min places most_places) c.host) }
        ensures questions { IfOk result (λ c. c.questions.items ≡ []) }
    {
        Ok(Context {
            host: PlainHost::new(heap, places)?,
            questions: Vec::new(heap),
        })
    }

    // Makes the context as it was when it was made.
    pub fn clear(&mut self, store: &mut Store<'_>)
        ensures host { Fresh self.old.host.places self.new.host }
        ensures questions { self.new.questions.items ≡ [] }
    {
        store.cut(0);
        self.host.clear();
        self.questions.clear();
    }

    // How many questions were asked.
    pub fn asked_count(&self) -> usize
        ensures { result ≡ vec_len self.now.questions }
    {
        self.questions.len()
    }

    pub fn asked(&self, number: usize) -> Option<&Asked>
        ensures { is_some result ≡ nat_lt number (vec_len self.now.questions) }
    {
        self.questions.get(number)
    }

    pub fn open_universe(&mut self) -> Result<Universe, HostFault>
        ensures answer { result ≡ opened self.old.host }
        ensures next { IfOk result (UniverseOpened self.old.host self.new.host) }
        ensures kept { OnErr result (self.new ≡ self.old) }
    {
        self.host.open_universe()
    }

    // Joins the classes of two type variables; false where they are joined already.
    pub fn join(&mut self, a: u32, b: u32) -> Result<bool, HostFault>
        ensures answer { result ≡ joined self.old.host a b }
        ensures next { IfOk result (AfterJoin a b self.old.host self.new.host) }
        ensures kept { OnErr result (self.new ≡ self.old) }
    {
        self.host.join(a, b)
    }

    // Makes a variable and its term, or neither.
    pub fn make(
        &mut self,
        store: &mut Store<'_>,
        sort: VariableSort,
        universe: Universe,
    ) -> Result<u32, HostFault>
        ensures both { (result, store.new) ≡ made_in self.old.host store.old sort universe }
        ensures next { OnOk result (Grown sort self.old.host self.new.host) }
        ensures kept { OnErr result (self.new ≡ self.old) }
    {
        self.host.may_make(universe)?;
        store.add_leaf(sort.leaf(self.host.count(sort)))?;
        self.host.make(sort, universe)
    }

    // Takes a goal to its canonical form; the question is still to be kept.
    pub fn canonicalize(
        &self,
        store: &mut Store<'_>,
        scratch: &mut Scratch,
        goal: Goal,
    ) -> Result<Asked, CallFault> {
        let (question, goal) = solver::canonicalize_goal(store, &self.host, scratch, goal)?;
        Ok(Asked { question, goal })
    }

    // Keeps a question under the next number.
    pub fn keep(&mut self, asked: Asked) -> Result<(), AllocError>
        ensures kept { OnOk result (self.new.questions.items ≡ self.old.questions.items ++ asked ∷ []) }
        ensures host { self.new.host ≡ self.old.host }
    {
        self.questions.push(asked)?;
        Ok(())
    }
}
