// The lexer: cuts a line into parentheses and words, and reads the words that stand alone.
ghost use Rattle.std.specs.Prelude.{◌≡◌, ◌-◌, ◌<◌, ◌≤◌, ◌↔◌, All, IsTrue, length, take, drop};
ghost use Rattle.text.specs.Words.{Within, Inside};

use crate::letter::Letter;
use crate::width::fit;
use theory::{ArgSort, Kind, Leaf};

#[derive(Clone, Copy, PartialEq, Eq)]
pub enum Mark {
    Open,
    Close,
    Word,
    // a character that stands in no word
    Foreign,
}

// Where something lies in a line: its first byte and the byte after its last, counted from 0.
#[derive(Clone, Copy)]
pub struct Span {
    pub start: usize,
    pub end: usize,
}

impl Span {
    // What lies there.
    pub fn bytes(self, text: &[u8]) -> &[u8]
        ensures { Inside text.now self → result.now ≡ take (self.end - self.start) (drop self.start text.now) }
    {
        text.get(self.start..self.end).unwrap_or(&[])
    }
}

// A token, with its bytes.
#[derive(Clone, Copy)]
pub struct Token<'a> {
    pub mark: Mark,
    pub span: Span,
    pub word: &'a [u8],
}

// Why a word is not what is wanted.
#[derive(Clone, Copy)]
pub enum WordFault {
    // a number that does not fit: the largest that does
    TooLarge(u64),
    Unknown,
}

fn is_space(b: u8) -> bool {
    matches!(b, b' ' | b'\t' | b'\r' | b'\n')
}

// Words are made of visible ASCII characters; a `#` starts a comment wherever it stands.
fn is_word(b: u8) -> bool {
    b.is_ascii_graphic() && !matches!(b, b'(' | b')' | b'#')
}

// The first place, at or after the given one, with a byte that is wanted; else the end.
fn seek<F: Fn(u8) -> bool>(text: &[u8], from: usize, wanted: F) -> usize
    requires { F.IsAlwaysCallable wanted }
    ensures within { result ≤ length text.now }
    ensures after { from ≤ length text.now → from ≤ result }
    ensures past { result < length text.now → from ≤ result }
{
    let Some(rest) = text.get(from..) else {
        return text.len();
    };
    match rest.iter().position(|b| wanted(*b)) {
        Some(k) => from + k,
        None => text.len(),
    }
}

// The tokens of a line from a place on; a comment is the end of its line.
#[derive(Clone, Copy)]
pub struct Tokens<'a> {
    text: &'a [u8],
    at: usize,
}

impl<'a> Tokens<'a> {
    pub fn new(text: &'a [u8]) -> Tokens<'a>
        ensures text { result.text.now ≡ text.now }
        ensures start { result.at ≡ 0 }
    {
        Tokens { text, at: 0 }
    }

    // The place behind the last token.
    pub fn place(&self) -> Span
        ensures { (result.start ≡ self.now.at) × (result.end ≡ self.now.at) }
    {
        Span {
            start: self.at,
            end: self.at,
        }
    }
}

impl<'a> Iterator for Tokens<'a> {
    ghost use Rattle.std.specs.Iterator.{at_most};
    ghost use Rattle.text.specs.Words.{Steps};

    type Item = Token<'a>;

    ghost remaining = { λ s. at_most (length s.text.now - s.at) };

    ghost next_gives = { Steps };

    fn next(&mut self) -> Option<Token<'a>> {
        let start = seek(self.text, self.at, |b| !is_space(b));
        let mark = match *self.text.get(start)? {
            b'#' => return None,
            b'(' => Mark::Open,
            b')' => Mark::Close,
            b if is_word(b) => Mark::Word,
            _ => Mark::Foreign,
        };
        let end = if mark == Mark::Word {
            seek(self.text, start + 1, |b| !is_word(b))
        } else {
            start + 1
        };
        let span = Span { start, end };
        self.at = end;
        Some(Token {
            mark,
            span,
            word: span.bytes(self.text),
        })
    }
}

// Whether a word is a number, of any size.
pub fn is_number(word: &[u8]) -> bool
    ensures { IsTrue result ↔ ((0 < length word.now) × All (λ b. (48 ≤ b) × (b ≤ 57)) word.now) }
{
    !word.is_empty() && word.iter().all(|b| b.is_ascii_digit())
}

// A number in decimal digits, at most the limit.
pub fn number(word: &[u8], limit: u64) -> Result<u64, WordFault>
    ensures { Within limit result }
{
    if !is_number(word) {
        return Err(WordFault::Unknown);
    }
    word.iter()
        .try_fold(
            0u64,
            |n, b| n.checked_mul(10)?.checked_add(u64::from(*b & 15)),
        )
        .filter(|n| *n <= limit)
        .ok_or(WordFault::TooLarge(limit))
}

// `?tN` and its like, `^tN` and its like.
fn numbered_leaf(sign: u8, letter: u8, digits: &[u8]) -> Result<Leaf, WordFault> {
    let most = u64::from(u32::MAX);
    let number = fit(number(digits, most)?).ok_or(WordFault::TooLarge(most))?;
    let Letter(sort) = Letter::try_from(letter)?;
    match sign {
        b'?' => Ok(sort.leaf(number)),
        b'^' => match ArgSort::try_from(sort) {
            Ok(sort) => Ok(Leaf::Canonical(sort, number)),
            Err(_) => Err(WordFault::Unknown),
        },
        _ => Err(WordFault::Unknown),
    }
}

// A word that is a leaf: a term or a kind without parentheses.
pub fn leaf(word: &[u8]) -> Result<Leaf, WordFault> {
    match word {
        b"static" => Ok(Leaf::Static),
        b"erased" => Ok(Leaf::Erased),
        b"terr" => Ok(Leaf::Error(ArgSort::Ty)),
        b"rerr" => Ok(Leaf::Error(ArgSort::Region)),
        b"cerr" => Ok(Leaf::Error(ArgSort::Const)),
        b"Int" => Ok(Leaf::Kind(Kind::Int)),
        b"Float" => Ok(Leaf::Kind(Kind::Float)),
        [sign, letter, digits @ ..] => numbered_leaf(*sign, *letter, digits),
        _ => Err(WordFault::Unknown),
    }
}

// The number of a question, `qN`.
pub fn question(word: &[u8]) -> Result<u64, WordFault>
    ensures { Within 4294967295 result }
{
    match word {
        [b'q', digits @ ..] => number(digits, u64::from(u32::MAX)),
        _ => Err(WordFault::Unknown),
    }
}
