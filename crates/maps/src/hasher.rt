// The hasher of the index. It multiplies and adds, so that keys and terms that count upwards, as handles and the numbers of
// variables do, fall evenly into the buckets: fewer share one than by a hash that scatters them.
ghost use Rattle.std.specs.Prelude.{◌≡◌};
ghost use Rattle.maps.specs.Hashing.{started, stepped, written, finished};

use std::hash::Hasher;

// Chosen by trying: of the pairs tried, these put the runs of numbers that keys and terms have most evenly into 65,536 buckets.
const STEP: u64 = 0x6e04_f309_2edb_ecb3;

const LAST: u64 = 0x39e4_a6fa_6dd7_78f3;

#[derive(Clone, Copy)]
pub struct WordHasher {
    state: u64,
}

impl Default for WordHasher {
    ghost is_default = { λ h. h ≡ started };

    #[tactic(auto, unfolding(crate::specs::Hashing::started))]
    fn default() -> WordHasher {
        WordHasher { state: 0 }
    }
}

impl WordHasher {
    // Takes one word more. Its high half is laid over its low half too: only some of the middle bits choose a bucket, and by
    // multiplying what lies high alone never comes down to them.
    #[tactic(auto, unfolding(crate::specs::Hashing::stepped))]
    fn take(&mut self, word: u64)
        ensures { self.new ≡ stepped self.old word }
    {
        self.state = self
            .state
            .wrapping_mul(STEP)
            .wrapping_add(word ^ (word >> 32));
    }
}

impl Hasher for WordHasher {
    ghost write = { written };

    ghost finish = { finished };

    #[tactic(auto, unfolding(crate::specs::Hashing::finished))]
    fn finish(&self) -> u64 {
        self.state.wrapping_mul(LAST) >> 32
    }

    // Two, four and eight bytes are a number, and so one word; of all else each byte is one.
    fn write(&mut self, bytes: &[u8]) {
        if bytes.len() == 2 {
            self.take(u64::from(u16::from_le_bytes([bytes[0], bytes[1]])));
        } else if bytes.len() == 4 {
            let number = u32::from_le_bytes([bytes[0], bytes[1], bytes[2], bytes[3]]);
            self.take(u64::from(number));
        } else if bytes.len() == 8 {
            self.take(u64::from_le_bytes([
                bytes[0], bytes[1], bytes[2], bytes[3], bytes[4], bytes[5], bytes[6], bytes[7],
            ]));
        } else {
            for byte in bytes {
                self.take(u64::from(*byte));
            }
        }
    }
}
