//! A hasher that is quick for short names. Its key is secret, which takes the place of many rounds.
ghost use Rattle.std.specs.Prelude.{◌≡◌, ◌<◌, length};
ghost use Rattle.atoms.specs.Hashing.{folded, mixed, tail_word};

use std::hash::Hasher;

/// What was hashed with a key of two numbers. Eight bytes at a time are multiplied to 128 bits, whose halves are joined.
#[derive(Clone, Copy)]
pub struct NameHasher {
    pub state: u64,
    pub multiplier: u64,
}

#[tactic(auto, unfolding(crate::specs::Hashing::folded))]
fn folded(a: u64, b: u64) -> u64
    ensures { result ≡ folded a b }
{
    let product = a as u128 * b as u128;
    (product & 0xFFFF_FFFF_FFFF_FFFF) as u64 ^ (product >> 64) as u64
}

/// Fewer than eight bytes as a number, which tells how many they are.
#[tactic(auto, unfolding(crate::specs::Hashing::tail_word))]
fn tail_word(bytes: &[u8]) -> u64
    ensures { result ≡ tail_word bytes.now }
{
    let mut word: u64 = 1;
    for byte in bytes {
        word = word << 8 | *byte as u64;
    }
    word
}

impl NameHasher {
    /// Takes a number in.
    #[tactic(auto, unfolding(crate::specs::Hashing::mixed))]
    fn mix(&mut self, word: u64)
        ensures { self.new ≡ mixed self.old word }
    {
        self.state = folded(self.state ^ word, self.multiplier);
    }
}

impl Hasher for NameHasher {
    ghost use Rattle.atoms.specs.Hashing.{write};

    ghost write = { write };

    ghost finish = { λ h. h.state };

    fn finish(&self) -> u64 {
        self.state
    }

    #[tactic(auto, using(crate::proofs::HashingByEights::written_tail), unfolding(crate::specs::Hashing::write))]
    fn write(&mut self, bytes: &[u8]) {
        let mut rest = bytes;
        while let [a, b, c, d, e, f, g, h, after @ ..] = rest {
            self.mix(u64::from_le_bytes([*a, *b, *c, *d, *e, *f, *g, *h]));
            rest = after;
        }
        self.mix(tail_word(rest));
    }
}
