// The suspects of a round.
ghost use Rattle.std.specs.Prelude.{◌≡◌, ◌≤◌, ◌==◌, position, take};
ghost use Rattle.repeats.specs.Suspects.{held};

// The first `count` of `keys`.
#[derive(Drop)]
pub struct Suspects {
    pub keys: [u64; 32],
    pub count: usize,
    ghost few: { count ≤ 32 },
}

impl Suspects {
    pub fn new() -> Suspects {
        Suspects {
            keys: [0; 32],
            count: 0,
        }
    }

    // Whether k is one of them. All are looked at, so that several can be compared at once.
    pub fn contains(&self, k: u64) -> bool
        ensures { result ≡ held self.now.keys self.now.count k }
    {
        let mut there = false;
        for c in 0..self.count {
            there = (self.keys[c] == k) | there;
        }
        there
    }

    // The first of them that is k, quick where there is none.
    pub fn position(&self, k: u64) -> Option<usize>
        ensures { result ≡ position (λ x. x == k) (take self.now.count self.now.keys) }
    {
        if self.contains(k) {
            self.keys[..self.count].iter().position(|s| *s == k)
        } else {
            None
        }
    }
}
