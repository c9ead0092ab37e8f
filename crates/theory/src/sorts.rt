// The sort of each form, what lists hold, what a place wants, and variables by their sort.
ghost use Rattle.std.specs.Prelude.{◌≡◌};
ghost use Rattle.theory.specs.Log.{of_var};
ghost use Rattle.theory.specs.Forms.{variable_of};
ghost use Rattle.theory.specs.Sorts.{of_argument, to_argument};
ghost use Rattle.theory.specs.Trees.{var_sort, leaf_sort, head_sort, node_sort, element, part_count, applies, suits};

use crate::words::{ArgSort, Head, Leaf, ListSort, Node, Sort, VarSort, VariableSort, Want};

impl VarSort {
    // Of what sort its variables are as arguments.
    fn argument(self) -> ArgSort
        ensures { result ≡ var_sort self }
    {
        match self {
            VarSort::Ty | VarSort::Int | VarSort::Float => ArgSort::Ty,
            VarSort::Const => ArgSort::Const,
        }
    }
}

impl From<VarSort> for VariableSort {
    ghost from_gives = { λ s r. r ≡ of_var s };

    fn from(sort: VarSort) -> VariableSort {
        match sort {
            VarSort::Ty => VariableSort::Ty,
            VarSort::Int => VariableSort::Int,
            VarSort::Float => VariableSort::Float,
            VarSort::Const => VariableSort::Const,
        }
    }
}

impl From<ArgSort> for VariableSort {
    ghost from_gives = { λ s r. r ≡ of_argument s };

    fn from(sort: ArgSort) -> VariableSort {
        match sort {
            ArgSort::Ty => VariableSort::Ty,
            ArgSort::Region => VariableSort::Region,
            ArgSort::Const => VariableSort::Const,
        }
    }
}

// The sort comes back where no sort of arguments is its own.
impl TryFrom<VariableSort> for ArgSort {
    type Error = VariableSort;

    ghost try_from_gives = { λ s r. r ≡ to_argument s };

    fn try_from(sort: VariableSort) -> Result<ArgSort, VariableSort> {
        match sort {
            VariableSort::Ty => Ok(ArgSort::Ty),
            VariableSort::Region => Ok(ArgSort::Region),
            VariableSort::Const => Ok(ArgSort::Const),
            VariableSort::Int | VariableSort::Float => Err(sort),
        }
    }
}

impl VariableSort {
    // The variable of this sort with a number.
    pub fn leaf(self, number: u32) -> Leaf
        ensures { result ≡ variable_of self number }
    {
        match self {
            VariableSort::Ty => Leaf::Variable(VarSort::Ty, number),
            VariableSort::Int => Leaf::Variable(VarSort::Int, number),
            VariableSort::Float => Leaf::Variable(VarSort::Float, number),
            VariableSort::Region => Leaf::RegionVariable(number),
            VariableSort::Const => Leaf::Variable(VarSort::Const, number),
        }
    }
}

impl Leaf {
    // The sort of the leaf.
    pub fn sort(self) -> Sort
        ensures { result ≡ leaf_sort self }
    {
        match self {
            Leaf::Variable(s, _) => Sort::Argument(s.argument()),
            Leaf::Parameter(a, _) | Leaf::Canonical(a, _) | Leaf::Error(a) => Sort::Argument(a),
            Leaf::Placeholder(a, _, _) | Leaf::Bound(a, _, _) => Sort::Argument(a),
            Leaf::RegionVariable(_) | Leaf::LateParameter(_) => Sort::Argument(ArgSort::Region),
            Leaf::Static | Leaf::Erased => Sort::Argument(ArgSort::Region),
            Leaf::Kind(_) => Sort::Kind,
        }
    }
}

impl Head {
    fn sort(self) -> Sort
        ensures { result ≡ head_sort self }
    {
        match self {
            Head::Constructor(_) | Head::Alias(_) | Head::Function(_) => Sort::Argument(
                ArgSort::Ty,
            ),
            Head::Unevaluated(_) | Head::Value(_) => Sort::Argument(ArgSort::Const),
            Head::Predicate(_, _) => Sort::Predicate,
            Head::OpaquePair => Sort::OpaquePair,
            Head::Goal => Sort::Goal,
            Head::Outlives(_) | Head::Equal(_) => Sort::Constraint,
            Head::List(s) => Sort::List(s),
        }
    }

    // Whether the head stands over one list, of its arguments, and not over its parts themselves.
    pub fn applies(self) -> bool
        ensures { result ≡ applies self }
    {
        matches!(
            self,
            Head::Constructor(_)
                | Head::Alias(_)
                | Head::Function(_)
                | Head::Unevaluated(_)
                | Head::Predicate(_, _)
        )
    }
}

impl Node {
    // The sort of the entry.
    pub fn sort(self) -> Sort
        ensures { result ≡ node_sort self }
    {
        match self {
            Node::Leaf(leaf) => leaf.sort(),
            Node::Over(head, _) => head.sort(),
        }
    }

    // How many parts the entry has.
    pub fn count(self) -> usize
        ensures { result ≡ part_count self }
    {
        match self {
            Node::Leaf(_) => 0,
            Node::Over(_, count) => count,
        }
    }
}

impl ListSort {
    // What the elements of the list are.
    pub fn element(self) -> Want
        ensures { result ≡ element self }
    {
        match self {
            ListSort::Arguments => Want::Argument,
            ListSort::Environment => Want::Of(Sort::Predicate),
            ListSort::OpaquePairs => Want::Of(Sort::OpaquePair),
            ListSort::Goals => Want::Of(Sort::Goal),
            ListSort::Constraints => Want::Of(Sort::Constraint),
            ListSort::Kinds => Want::Of(Sort::Kind),
        }
    }
}

impl Want {
    // Whether a term of a sort is what is wanted; an alias is a type that some places ask for.
    pub fn suits(self, sort: Sort, is_alias: bool) -> bool
        ensures { result ≡ suits self sort is_alias }
    {
        match self {
            Want::Argument => matches!(sort, Sort::Argument(_)),
            Want::Alias => is_alias,
            Want::Of(wanted) => wanted == sort,
        }
    }
}
