// The canonicalizer: names become canonical variables, in walk order, parts before wholes.
ghost use Rattle.std.specs.Prelude.{◌≡◌, ◌+◌, ◌*◌, ◌^◌, ◌<◌, ◌≤◌, true, length, IfOk, IfErr, OnOk};
ghost use Rattle.solver.specs.Goals.{leaf_variable, known};
ghost use Rattle.solver.specs.Sizes.{size_at};
ghost use Rattle.solver.specs.Opened.{AllHeld, IsHeld, turns, turns_of_size};
ghost use Rattle.solver.specs.Numbers.{call_number, of_goal};

use crate::canonical::fault::GoalFault;
use crate::canonical::forms::{Form, Part, form_in_goal};
use crate::canonical::scratch::{Open, Scratch, put_reserved};
use crate::canonical::{CallFault, CanonicalGoal, Goal, Question};
use host::PlainHost;
use terms::Store;
use theory::{Flags, Handle, Head, Leaf, ListSort, Node, Sort, StoreFault, VariableSort};

// The variable that a leaf is. No method: `Leaf` is of a lower crate, in which nothing asks for it.
fn variable(leaf: Leaf) -> Option<(VariableSort, u32)>
    ensures { result ≡ leaf_variable leaf }
{
    match leaf {
        Leaf::Variable(sort, number) => Some((VariableSort::from(sort), number)),
        Leaf::RegionVariable(number) => Some((VariableSort::Region, number)),
        _ => None,
    }
}

// Refuses 4 for a variable that the host has not made.
fn check_known(host: &PlainHost, leaf: Leaf) -> Result<(), GoalFault>
    ensures { result ≡ known host.now leaf }
{
    match variable(leaf) {
        Some((sort, number)) if !host.is_known(sort, number) => Err(GoalFault::UnknownVariable(
            sort, number,
        )),
        _ => Ok(()),
    }
}

// A leaf of these flags may be a name: variables, placeholders, parameters, free and erased regions.
const NAMES: Flags = Flags {
    bits: Flags::TY_VARIABLE.bits
        | Flags::INT_VARIABLE.bits
        | Flags::FLOAT_VARIABLE.bits
        | Flags::CONST_VARIABLE.bits
        | Flags::REGION_VARIABLE.bits
        | Flags::PLACEHOLDER.bits
        | Flags::PARAMETER.bits
        | Flags::FREE_REGION.bits
        | Flags::ERASED.bits,
};

// The walks over the parts of one goal, and the part that is walked. The terms that are open are in the store.
#[derive(Drop)]
struct Canonicalizer<'a, 's> {
    store: &'a mut Store<'s>,
    host: &'a PlainHost,
    tables: &'a mut Scratch,
    part: Part,
    ghost held: { AllHeld store.now.trees tables.now.opened.items },
}

impl Canonicalizer<'_, '_> {
    ghost use Rattle.solver.specs.Walks.{SameOpen, turns_left};

    // A leaf, rewritten. It refuses 4, then 13, then 15, then 2.
    fn rewrite_leaf(&mut self, term: Handle, leaf: Leaf) -> Result<Handle, GoalFault>
        ensures { SameOpen self.old self.new }
    {
        let Some(form) = form_in_goal(self.part, leaf) else {
            return Ok(term);
        };
        check_known(self.host, leaf)?;
        if self.part == Part::Environment && matches!(form, Form::Ty(_)) {
            return Err(GoalFault::TypeVariableInEnvironment(term));
        }
        let number = self.tables.names.number_of(self.host, term, form)?;
        Ok(self.store.add_leaf(Leaf::Canonical(form.sort(), number))?)
    }

    // Whether a term can be left as it is, with no look at its parts. An environment in the value is met even where nothing
    // in it is a name, and only goals and their lists hold one.
    fn is_settled(&self, term: Handle, head: Head) -> Result<bool, StoreFault> {
        match head {
            Head::Goal | Head::List(ListSort::Goals) => Ok(false),
            _ => Ok(!self.store.facts(term)?.flags.meets(NAMES)),
        }
    }

    // Begins a term: it is rewritten at once, or opened.
    fn visit(&mut self, term: Handle) -> Result<(), GoalFault>
        ensures { OnOk result (turns_left self.new ≤ turns_left self.old + 2 ^ 64 * turns_of_size (size_at self.old.store.now.trees term)) }
    {
        if let Some(result) = self.tables.cache.get(term) {
            return Ok(put_reserved(&mut self.tables.waiting, result)?);
        }
        match self.store.get(term)? {
            Node::Leaf(leaf) => {
                let result = self.rewrite_leaf(term, leaf)?;
                self.tables.cache.put(term, result);
                Ok(put_reserved(&mut self.tables.waiting, result)?)
            }
            Node::Over(Head::List(ListSort::Environment), _) if self.part == Part::Value => Err(
                GoalFault::EnvironmentInValue(term),
            ),
            Node::Over(head, count) => Ok(self.open_over(term, head, count)?),
        }
    }

    // Opens a term over parts, or leaves it as it is.
    fn open_over(&mut self, term: Handle, head: Head, count: usize) -> Result<(), StoreFault>
        requires { term < length self.old.store.now.trees }
        ensures { OnOk result (turns_left self.new ≤ turns_left self.old + 2 ^ 64 * turns_of_size (size_at self.old.store.now.trees term)) }
    {
        if self.is_settled(term, head)? {
            return put_reserved(&mut self.tables.waiting, term);
        }
        let base = self.tables.waiting.len();
        let opened = Open {
            term,
            head,
            places: 0..count,
            base,
        };
        put_reserved(&mut self.tables.opened, opened)
    }

    // Ends an open term: it is added over its rewritten parts.
    fn finish(&mut self, ended: Open) -> Result<(), StoreFault>
        ensures { SameOpen self.old self.new }
    {
        let result = match self.tables.waiting.as_slice().get(ended.base..) {
            Some(parts) => self.store.add(ended.head, parts)?,
            None => return Err(StoreFault::NoSuch(ended.term)),
        };
        self.tables.waiting.truncate(ended.base);
        self.tables.cache.put(ended.term, result);
        put_reserved(&mut self.tables.waiting, result)
    }

    // One turn of a walk: the innermost open term goes on to its next part, or ends.
    fn turn(&mut self, mut innermost: Open) -> Result<(), GoalFault>
        requires { IsHeld self.old.store.now.trees innermost }
        ensures { OnOk result (turns_left self.new < turns_left self.old + turns self.old.store.now.trees innermost) }
    {
        let Some(place) = innermost.places.next() else {
            return Ok(self.finish(innermost)?);
        };
        let part = self.store.part(innermost.term, place)?;
        put_reserved(&mut self.tables.opened, innermost)?;
        self.visit(part)
    }

    // Rewrites one part of a goal.
    fn rewrite(&mut self, part: Part, root: Handle) -> Result<Handle, GoalFault> {
        self.part = part;
        self.tables.waiting.clear();
        self.visit(root)?;
        while let Some(open) = self.tables.opened.pop() {
            self.turn(open)?;
        }
        Ok(self.tables.waiting.pop().ok_or(StoreFault::NoSuch(root))?)
    }

    // Rewrites the environment, the value and the opaque pairs. Static stays in the environment alone, so that its results
    // do not serve the other two.
    fn rewrite_parts(&mut self, goal: Goal) -> Result<Goal, GoalFault>
        ensures { IfOk result (λ g. g.mode ≡ goal.mode) }
    {
        self.tables.names.clear();
        self.tables.cache.forget();
        let env = self.rewrite(Part::Environment, goal.env)?;
        self.tables.cache.forget();
        let value = self.rewrite(Part::Value, goal.value)?;
        let opaques = self.rewrite(Part::Opaques, goal.opaques)?;
        Ok(Goal {
            env,
            value,
            opaques,
            mode: goal.mode,
        })
    }
}

// Refuses 1 for a handle that names nothing or another sort than its place in a goal takes.
fn check_handles(store: &Store, goal: Goal) -> Result<(), StoreFault> {
    if store.sort(goal.env)? != Sort::List(ListSort::Environment) {
        return Err(StoreFault::BadPart(0));
    }
    let _ = store.sort(goal.value)?;
    if store.sort(goal.opaques)? != Sort::List(ListSort::OpaquePairs) {
        return Err(StoreFault::BadPart(2));
    }
    Ok(())
}

// Refuses 11 where a canonical variable occurs.
fn check_no_canonical(store: &Store, term: Handle) -> Result<(), GoalFault> {
    if store.facts(term)?.flags.meets(Flags::CANONICAL) {
        return Err(GoalFault::CanonicalPresent(term));
    }
    Ok(())
}

// A goal, rewritten with the names that its walks list.
fn rewrite_goal<'a>(
    store: &'a mut Store<'_>,
    host: &'a PlainHost,
    tables: &'a mut Scratch,
    goal: Goal,
) -> Result<Goal, GoalFault>
    ensures { IfOk result (λ g. g.mode ≡ goal.mode) }
{
    tables.opened.clear();
    let mut canonicalizer = Canonicalizer {
        store,
        host,
        tables,
        part: Part::Environment,
    };
    canonicalizer.rewrite_parts(goal)
}

// As `canonicalize_goal`, but a refused call leaves the terms that it has added.
fn canonicalize(
    store: &mut Store,
    host: &PlainHost,
    scratch: &mut Scratch,
    goal: Goal,
) -> Result<(Question, CanonicalGoal), GoalFault>
    ensures { IfOk result (λ a. (a.1.max_universe ≡ 0) × (a.1.goal.mode ≡ goal.mode)) }
{
    check_handles(store, goal)?;
    for part in Part::ALL {
        check_no_canonical(store, goal.term(part))?;
    }
    let rewritten = rewrite_goal(store, host, scratch, goal)?;
    let kinds = scratch.add_list(store, ListSort::Kinds, |store, name| {
        store.add_leaf(Leaf::Kind(name.kind))
    })?;
    let originals = scratch.add_list(store, ListSort::Arguments, |_, name| Ok(name.original))?;
    Ok((
        Question { originals },
        CanonicalGoal {
            max_universe: 0,
            kinds,
            goal: rewritten,
        },
    ))
}

// Canonicalizes a goal at the host's present moment: the question, which keeps the original values, and the canonical goal.
// It refuses 1 for a handle, then 11, then what the walk meets first. A refused call adds nothing to the store.
pub fn canonicalize_goal(
    store: &mut Store,
    host: &PlainHost,
    scratch: &mut Scratch,
    goal: Goal,
) -> Result<(Question, CanonicalGoal), CallFault>
    ensures kept { IfOk result (λ a. (a.1.max_universe ≡ 0) × (a.1.goal.mode ≡ goal.mode)) }
    ensures numbers { IfErr result (λ e. of_goal (call_number e) ≡ true) }
{
    let len = store.len();
    let answer = canonicalize(store, host, scratch, goal);
    if answer.is_err() {
        store.cut(len);
    }
    Ok(answer?)
}
