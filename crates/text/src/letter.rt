// The letters that stand for the sorts of variables, as `t` in `?t0`.
ghost use Rattle.std.specs.Prelude.{◌≡◌, [], ◌∷◌, IfOk, Some};
ghost use Rattle.text.specs.Letters.{letter};

use crate::lex::WordFault;
use std::fmt;
use theory::VariableSort;

// The letter of a sort.
pub fn sort_letter(sort: VariableSort) -> &'static str
    ensures { result.now ≡ letter sort ∷ [] }
{
    match sort {
        VariableSort::Ty => "t",
        VariableSort::Int => "i",
        VariableSort::Float => "f",
        VariableSort::Region => "r",
        VariableSort::Const => "c",
    }
}

// A sort that is shown by its letter, or read from it.
#[derive(Clone, Copy)]
pub struct Letter(pub VariableSort);

impl fmt::Display for Letter {
    ghost output = { λ l. Some (letter l.0 ∷ []) };

    fn fmt<W: fmt::Write>(&self, f: &mut fmt::Formatter<W>) -> fmt::Result {
        f.write_str(sort_letter(self.0))
    }
}

impl TryFrom<u8> for Letter {
    type Error = WordFault;

    ghost try_from_gives = { λ b r. IfOk r (λ l. b ≡ letter l.0) };

    fn try_from(b: u8) -> Result<Letter, WordFault> {
        match b {
            b't' => Ok(Letter(VariableSort::Ty)),
            b'i' => Ok(Letter(VariableSort::Int)),
            b'f' => Ok(Letter(VariableSort::Float)),
            b'r' => Ok(Letter(VariableSort::Region)),
            b'c' => Ok(Letter(VariableSort::Const)),
            _ => Err(WordFault::Unknown),
        }
    }
}
