// The names of a goal, and how they are listed and numbered.
ghost use Rattle.std.specs.Prelude.{◌≡◌, ◌<◌, [], ◌∷◌, ◌++◌, length, if◌then◌else◌, Some, None, IfSome, nat_lt};
ghost use Rattle.std.specs.List.{position_from};
ghost use Rattle.theory.specs.Limits.{most_names};
ghost use Rattle.theory.specs.Outcomes.{answered};
ghost use Rattle.solver.specs.Names.{is_leaf, in_class};
ghost use Rattle.solver.specs.Goals.{entered, numbered};

use crate::canonical::fault::GoalFault;
use crate::canonical::forms::Form;
use host::PlainHost;
use std::alloc::{AllocError, Global};
use std::marker::Model;
use theory::{Handle, Kind, MOST_NAMES, VariableSort};

// A name: its leaf, its kind, and of a type variable the root of its sub class.
#[derive(Clone, Copy)]
pub struct Name {
    pub original: Handle,
    pub kind: Kind,
    pub class: Option<u32>,
}

// The names in the order in which they are met.
#[derive(Drop)]
pub struct Names {
    list: Vec<Name>,
}

impl Model for Names {
    ghost use Rattle.std.specs.Prelude.{◌≤◌, List, vec_len, vec_capacity};
    ghost use Rattle.theory.specs.Limits.{most_names};
    ghost use Rattle.solver.specs.declared.canonical.names.Name.{Name};

    ghost Value = { List Name };

    ghost view = { λ n. n.list.items };

    ghost invariant = { λ n. (vec_len n.list ≤ most_names) × (most_names ≤ vec_capacity n.list) };
}

impl Names {
    pub fn new(heap: Global) -> Result<Names, AllocError> {
        Ok(Names {
            list: Vec::with_capacity(heap, MOST_NAMES as usize)?,
        })
    }

    pub fn clear(&mut self)
        ensures { self.new ≡ [] }
    {
        self.list.clear();
    }

    // The number that the next name takes, or none where all are taken.
    fn next(&self) -> Option<usize>
        ensures { result ≡ (if nat_lt (length self.now) most_names then Some (length self.now) else None) }
    {
        let number = self.list.len();
        (number < MOST_NAMES as usize).then_some(number)
    }

    pub fn as_slice(&self) -> &[Name]
        ensures { result.now ≡ self.now }
    {
        self.list.as_slice()
    }

    // The number of a leaf that is listed.
    fn find(&self, original: Handle) -> Option<usize>
        ensures first { result ≡ position_from (is_leaf original) 0 self.now }
        ensures few { IfSome result (λ n. n < most_names) }
    {
        self.list.iter().position(|name| name.original == original)
    }

    // The first number of a type variable of a sub class.
    fn first_of(&self, class: u32) -> Option<usize>
        ensures first { result ≡ position_from (in_class class) 0 self.now }
        ensures few { IfSome result (λ n. n < most_names) }
    {
        self.list.iter().position(|name| name.class == Some(class))
    }

    // Lists one name more.
    fn add(&mut self, name: Name)
        requires { length self.old < most_names }
        ensures { self.new ≡ self.old ++ name ∷ [] }
    {
        self.list.push_reserved(name);
    }

    // Lists a new name under its number. Its kind is in universe 0; a type variable's sub root is the first listed number of
    // its sub class, a placeholder's number its own.
    fn enter(&mut self, host: &PlainHost, term: Handle, form: Form) -> Result<u32, GoalFault>
        ensures { (result, self.new) ≡ answered self.old (entered host.now self.old term form) }
    {
        let Some(number) = self.next() else {
            return Err(GoalFault::TooManyNames(term));
        };
        let (kind, class) = match form {
            Form::Ty(variable) => {
                let Ok(root) = host.root(variable) else {
                    return Err(GoalFault::UnknownVariable(VariableSort::Ty, variable));
                };
                let sub_root = self.first_of(root).unwrap_or(number);
                (Kind::Ty(0, sub_root as u32), Some(root))
            }
            Form::Int => (Kind::Int, None),
            Form::Float => (Kind::Float, None),
            Form::Const => (Kind::Const(0), None),
            Form::Placeholder(sort) => (Kind::Placeholder(sort, 0, number as u32), None),
        };
        self.add(Name {
            original: term,
            kind,
            class,
        });
        Ok(number as u32)
    }

    // The number of a name: the one that it has, or the next.
    pub fn number_of(
        &mut self,
        host: &PlainHost,
        term: Handle,
        form: Form,
    ) -> Result<u32, GoalFault>
        ensures { (result, self.new) ≡ answered self.old (numbered host.now self.old term form) }
    {
        match self.find(term) {
            Some(number) => Ok(number as u32),
            None => self.enter(host, term, form),
        }
    }
}
