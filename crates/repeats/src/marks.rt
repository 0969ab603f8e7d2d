// Which marks a key has. Nothing depends on it but the speed.
ghost use Rattle.std.specs.Prelude.{◌≡◌, ◌^◌, ◌≤◌, ◌<◌};
ghost use Rattle.repeats.specs.Marks.{stirred, mixed, word_of, bits_of, Covers};

use std::marker::Model;

// How keys are scattered over the marks: by a factor, small enough for no sum to wrap.
#[derive(Clone, Copy)]
pub struct Scatter {
    factor: u64,
}

impl Model for Scatter {
    ghost use Rattle.std.specs.Prelude.{ℕ};
    ghost use Rattle.repeats.specs.Marks.{Factor};

    ghost Value = { ℕ };

    ghost view = { λ s. s.factor };

    ghost invariant = { λ s. Factor s.factor };

    ghost inverse = { λ f. record { factor = f } };
}

fn bit(x: u64) -> u64
    requires { x < 64 }
    ensures { result ≡ 2 ^ x }
{
    1u64 << x
}

impl Scatter {
    // The one that the block from entry b on begins with: each block has its own, so that keys chosen against one do not mislead in all.
    pub fn of_block(b: usize) -> Scatter {
        Scatter {
            factor: b as u64 % 1000000007 * 48271 % 1000000007 + 1000000000,
        }
    }

    pub fn next(self) -> Scatter {
        Scatter {
            factor: self.factor * 48271 % 1000000007 + 1000000000,
        }
    }

    fn stir(self, x: u64) -> u64
        ensures { result ≡ stirred self x }
    {
        x % 4294967296 * self.factor + x / 4294967296 * 2246822519
    }

    fn mix(self, k: u64) -> u64
        ensures { result ≡ mixed self k }
    {
        self.stir(self.stir(k))
    }

    pub fn word(self, k: u64) -> usize
        ensures { (result ≡ word_of self k) × (result < 896) }
    {
        (self.mix(k) / 1048576 % 896) as usize
    }

    pub fn bits(self, k: u64) -> u64
        ensures { result ≡ bits_of self k }
    {
        let m = self.mix(k);
        bit(m / 1073741824 % 64)
            | bit(m / 68719476736 % 64)
            | bit(m / 4398046511104 % 64)
            | bit(m / 281474976710656 % 64)
    }

    // 1 where all of k's marks are set in its word, else 0: a number, so that a suspect is counted without a branch.
    pub fn covered(self, k: u64, word: u64) -> usize
        ensures { (result ≤ 1) × (Covers word (bits_of self k) → result ≡ 1) }
    {
        let bits = self.bits(k);
        usize::from(word & bits == bits)
    }
}
