// The calls of a map: each answers and changes its pairs as specs/Pairs.antt says.
ghost use Rattle.std.specs.Prelude.{◌≡◌, ◌+◌, ◌-◌, ◌<◌, [], ◌∷◌, ◌++◌, length, take, is_ok, IfSome};
ghost use Rattle.theory.specs.Outcomes.{at as elem};
ghost use Rattle.maps.specs.Keys.{digest};
ghost use Rattle.maps.specs.Pairs.{pair as pair_with, place as place_of_key, found, revalued, inserted, shown, ReadsAs, IsBounded};

use crate::chain::{put_first, seek, take_first};
use crate::key::digest;
use crate::map::Map;
use crate::slot::Slot;
use std::hash::Hash;
use theory::StoreFault;

impl<K: Copy + Eq + Hash, V: Copy> Map<'_, K, V> {
    // Where the pair of a key with this hash is.
    fn locate(&self, hash: u32, key: K) -> Option<usize>
        requires { hash ≡ digest K.hash_input key }
        ensures place { result ≡ place_of_key K.eq (digest K.hash_input) self.now.pairs key }
        ensures within { IfSome result (λ i. i < length self.now.pairs) }
        ensures few { IsBounded self.now }
    {
        if self.buckets.is_empty() {
            return None;
        }
        seek(&self.slots[..self.len], self.buckets, hash, |slot| {
            slot.key == key
        })
    }

    // The value of a key.
    pub fn get(&self, key: K) -> Option<V>
        ensures answer { result ≡ found K.eq (digest K.hash_input) self.now.pairs key }
        ensures few { IsBounded self.now }
    {
        let place = self.locate(digest(&key), key)?;
        // As a slice first: only then is it known that the place is inside.
        let slots = &*self.slots;
        Some(slots[place].value)
    }

    // The pair at a place, in the order in which keys were first inserted.
    pub fn pair(&self, place: usize) -> Option<(K, V)>
        ensures answer { result ≡ shown (elem self.now.pairs place) }
        ensures few { IsBounded self.now }
    {
        if place >= self.len {
            return None;
        }
        let slot = self.slots[place];
        Some((slot.key, slot.value))
    }
}

impl<K: Copy + Eq + Hash, V: Copy> Map<'_, K, V> {
    // Another value in place of that at a place.
    fn replace(&mut self, place: usize, value: V)
        requires { place < length self.old.pairs }
        ensures { self.new ≡ record self.old { pairs = revalued self.old.pairs place value } }
    {
        // As a slice first: only then is it known that the place is inside.
        let slots = &mut *self.slots;
        let old = slots[place];
        slots[place] = Slot { value, ..old };
    }

    // One more pair, at the front of its bucket's chain.
    fn push(&mut self, hash: u32, key: K, value: V)
        requires { length self.old.pairs < self.old.room }
        ensures { self.new ≡ record self.old { pairs = self.old.pairs ++ pair_with key value hash ∷ [] } }
    {
        let len = self.len;
        let next = put_first(self.buckets, hash, len);
        self.slots[len] = Slot {
            key,
            value,
            hash,
            next,
        };
        self.len = len + 1;
    }

    // The value of a key from now on: refuses 2 where the key is new and there is no room for it.
    pub fn insert(&mut self, key: K, value: V) -> Result<(), StoreFault>
        ensures after { (result, self.new) ≡ inserted K.eq (digest K.hash_input) self.old key value }
        ensures law { ReadsAs K.eq (digest K.hash_input) self.old.pairs key value (is_ok result) self.new.pairs }
        ensures few { IsBounded self.new }
    {
        let hash = digest(&key);
        if let Some(place) = self.locate(hash, key) {
            self.replace(place, value);
            return Ok(());
        }
        if self.len >= self.limit {
            return Err(StoreFault::Full);
        }
        self.push(hash, key, value);
        Ok(())
    }

    // Takes the newest pair away: its bucket's chain begins with the one before it again.
    fn shorten(&mut self)
        requires { 0 < length self.old.pairs }
        ensures { self.new ≡ record self.old { pairs = take (length self.old.pairs - 1) self.old.pairs } }
    {
        let last = self.len - 1;
        let slot = self.slots[last];
        take_first(self.buckets, slot.hash, slot.next);
        self.len = last;
    }

    // Forgets every pair; it takes as long as there are pairs, not buckets.
    pub fn clear(&mut self)
        ensures after { self.new ≡ record self.old { pairs = [] } }
        ensures few { IsBounded self.new }
    {
        while self.len() > 0 {
            self.shorten();
        }
    }
}
