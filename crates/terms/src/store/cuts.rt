// Cutting a store back, for calls that change all or nothing.
ghost use Rattle.std.specs.Prelude.{◌≡◌, ◌-◌, ◌<◌, length};
ghost use Rattle.theory.specs.Store.{cut_back};
ghost use Rattle.terms.specs.Whole.{IsWhole};

use crate::store::Store;
use maps::take_first;

impl Store<'_> {
    // Takes the newest term away: its bucket's chain begins with the one before it again.
    fn shorten(&mut self)
        requires { 0 < length self.old.trees }
        ensures { self.new ≡ cut_back self.old (length self.old.trees - 1) }
    {
        let last = self.len - 1;
        let e = self.entries[last];
        take_first(self.buckets, e.hash, e.next);
        self.len = last;
        self.used = e.first as usize;
    }

    // Keeps the first `len` terms; a store that is shorter stays as it is.
    pub fn cut(&mut self, len: usize)
        ensures after { self.new ≡ cut_back self.old len }
        ensures whole { IsWhole self.new }
    {
        while self.len() > len {
            self.shorten();
        }
    }
}
