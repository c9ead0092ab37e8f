// The one decision of canonicalizing: which leaves are names, and of which form.
ghost use Rattle.std.specs.Prelude.{◌≡◌};
ghost use Rattle.solver.specs.Goals.{form_sort, goal_form};

use theory::{ArgSort, Leaf, VarSort};

// The part of a goal that a term stands in.
#[derive(Clone, Copy, PartialEq, Eq)]
pub enum Part {
    Environment,
    Value,
    Opaques,
}

impl Part {
    // In the order in which they are walked and compared.
    pub const ALL: [Part; 3] = [Part::Environment, Part::Value, Part::Opaques];
}

// The form of the kind that a name gets; a type variable's sub root is found by its number.
#[derive(Clone, Copy)]
pub enum Form {
    Ty(u32),
    Int,
    Float,
    Const,
    Placeholder(ArgSort),
}

impl Form {
    // The sort of the canonical variable that stands for a name of this form.
    pub fn sort(self) -> ArgSort
        ensures { result ≡ form_sort self }
    {
        match self {
            Form::Ty(_) | Form::Int | Form::Float => ArgSort::Ty,
            Form::Const => ArgSort::Const,
            Form::Placeholder(sort) => sort,
        }
    }
}

// The form that a leaf gets in that part of a goal, or none where it stays as it is.
pub fn form_in_goal(part: Part, leaf: Leaf) -> Option<Form>
    ensures { result ≡ goal_form part leaf }
{
    match leaf {
        Leaf::Variable(VarSort::Ty, number) => Some(Form::Ty(number)),
        Leaf::Variable(VarSort::Int, _) => Some(Form::Int),
        Leaf::Variable(VarSort::Float, _) => Some(Form::Float),
        Leaf::Variable(VarSort::Const, _) => Some(Form::Const),
        Leaf::Parameter(sort, _) | Leaf::Placeholder(sort, _, _) => Some(Form::Placeholder(sort)),
        Leaf::Static if part == Part::Environment => None,
        Leaf::Static | Leaf::Erased | Leaf::Error(ArgSort::Region) => Some(Form::Placeholder(
            ArgSort::Region,
        )),
        Leaf::RegionVariable(_) | Leaf::LateParameter(_) => Some(Form::Placeholder(
            ArgSort::Region,
        )),
        Leaf::Bound(_, _, _) | Leaf::Canonical(_, _) | Leaf::Error(_) | Leaf::Kind(_) => None,
    }
}
