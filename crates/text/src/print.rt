// The printer: writes the values of a store in the text form.
use crate::shown::{Closing, Opening, Shown};
use crate::trouble::Trouble;
use terms::Store;
use theory::{Handle, Node};

// A text that is being written, beside the store whose values it shows. No Display, since to show a value can be refused.
#[derive(Drop)]
pub struct Printer<'s, 'm> {
    pub store: &'s Store<'m>,
    pub out: String,
}

// A part stands in the store before its whole: from a term to its parts handles fall.
impl Printer<'_, '_> {
    // Writes a value.
    #[cycle(print)]
    pub fn value(&mut self, value: Handle) -> Result<(), Trouble> {
        match self.store.get(value)? {
            Node::Leaf(leaf) => write!(self.out, "{}", Shown(leaf))?,
            Node::Over(head, _) => {
                write!(self.out, "{}", Opening(head))?;
                if head.applies() {
                    let list = self.store.part(value, 0)?;
                    self.parts(list)?;
                } else {
                    self.parts(value)?;
                }
                write!(self.out, "{}", Closing(head))?;
            }
        }
        Ok(())
    }

    // Writes the parts of a term, each after a space.
    #[cycle(print)]
    fn parts(&mut self, term: Handle) -> Result<(), Trouble> {
        let store = self.store;
        for part in store.parts(term)? {
            self.out.push_str(" ")?;
            self.value(*part)?;
        }
        Ok(())
    }

    // Writes a list of arguments as the values that stand for names.
    pub fn values(&mut self, list: Handle) -> Result<(), Trouble> {
        self.out.push_str("(vals")?;
        self.parts(list)?;
        self.out.push_str(")")?;
        Ok(())
    }
}
