// The chains of a hash index over entries in lent memory, and the search along one.
ghost use Rattle.std.specs.Prelude.{◌≡◌, ℕ, ◌+◌, ◌%◌, ◌<◌, length, map, set, slice_index};
ghost use Rattle.std.specs.Fn.{FnReturnsAt};
ghost use Rattle.std.specs.List.{All};
ghost use Rattle.theory.specs.Limits.{most_entries};
ghost use Rattle.maps.specs.Chains.{Chained, place_of, Sought};

use std::marker::Model;

// A link of a chain: to the entry at a place, or to none. It is the number that a lent bucket holds, since callers lend
// buckets as numbers: one more than the place, and 0 ends a chain.
#[derive(Clone, Copy)]
pub struct Link(u32);

impl Model for Link {
    ghost use Rattle.std.specs.Prelude.{ℕ};

    ghost Value = { ℕ };

    ghost view = { λ l. l.0 };

    ghost inverse = { λ n. record { 0 = n } };
}

impl Link {
    // The end of a chain.
    pub const NONE: Link = Link(0);

    // The link to a place.
    fn to(place: usize) -> Link
        requires { place < most_entries }
        ensures { result ≡ place + 1 }
    {
        Link(place as u32 + 1)
    }

    // The place that it names.
    fn place(self) -> Option<usize>
        ensures { result ≡ place_of self }
    {
        (self.0 as usize).checked_sub(1)
    }
}

impl From<u32> for Link {
    ghost from_gives = { λ number r. r ≡ number };

    fn from(number: u32) -> Link {
        Link(number)
    }
}

impl From<Link> for u32 {
    ghost from_gives = { λ link r. r ≡ link };

    fn from(link: Link) -> u32 {
        link.0
    }
}

// An entry of an index: the hash of what it holds, and a link to the newest entry before it in its bucket.
pub trait Linked {
    ghost hash_of: { Self → ℕ };

    ghost next_of: { Self → ℕ };

    fn hash(&self) -> u32
        ensures { result ≡ hash_of self.now };

    fn next(&self) -> Link
        ensures { result ≡ next_of self.now };
}

// The bucket, of so many, of an entry with this hash.
fn bucket_of(hash: u32, buckets: usize) -> usize
    requires { 0 < buckets }
    ensures { result ≡ hash % buckets }
{
    hash as usize % buckets
}

// Puts the entry at a place at the front of its bucket's chain. The link is to the entry that was at the front.
pub fn put_first(buckets: &mut [u32], hash: u32, place: usize) -> Link
    requires some { 0 < length buckets.old }
    requires few { place < most_entries }
    ensures next { result ≡ slice_index buckets.old (hash % length buckets.old) }
    ensures after { buckets.new ≡ set buckets.old (hash % length buckets.old) (place + 1) }
{
    let b = bucket_of(hash, buckets.len());
    let next = Link::from(buckets[b]);
    buckets[b] = Link::to(place).into();
    next
}

// Takes the entry at the front of its bucket's chain away, which begins with the next one then.
pub fn take_first(buckets: &mut [u32], hash: u32, next: Link)
    requires { 0 < length buckets.old }
    ensures { buckets.new ≡ set buckets.old (hash % length buckets.old) next }
{
    let b = bucket_of(hash, buckets.len());
    buckets[b] = next.into();
}

// The newest entry with this hash that is the one sought, by the chain of its bucket.
pub fn seek<T: Linked, F: Fn(&T) -> bool>(
    entries: &[T],
    buckets: &[u32],
    hash: u32,
    is_it: F,
) -> Option<usize>
    requires some { 0 < length buckets.now }
    requires chained { Chained (map T.hash_of entries.now) (map T.next_of entries.now) buckets.now }
    requires callable { All (λ x. (p : _) → p.now ≡ x → F.pre is_it p) entries.now }
    ensures { Sought T.hash_of (FnReturnsAt F.Fn is_it) hash entries.now result }
{
    let mut at = Link::from(buckets[bucket_of(hash, buckets.len())]).place();
    while let Some(place) = at {
        let entry = &entries[place];
        if entry.hash() == hash && is_it(entry) {
            return at;
        }
        at = entry.next().place();
    }
    None
}
