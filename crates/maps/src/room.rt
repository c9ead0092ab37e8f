// How much of the lent memory may be used.
ghost use Rattle.std.specs.Prelude.{◌≡◌};
ghost use Rattle.maps.specs.Room.{limited};

use theory::MOST_ENTRIES;

// How many entries there is memory for: none without a bucket to find them by.
pub fn limit_of(entries: usize, buckets: usize) -> usize
    ensures { result ≡ limited entries buckets }
{
    if buckets == 0 {
        0
    } else {
        entries.min(MOST_ENTRIES)
    }
}
