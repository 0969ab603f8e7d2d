// The ratio by which a picture is scaled, and a side at that ratio, in fractions of whole numbers (02, P4). Nothing is rounded before the end: a fraction's
// numbers have 32 bits, so a product of two of them has 64 at most.
#![tactic(auto)]

ghost use Rattle.std.specs.Prelude.{◌≡◌, ◌*◌, ◌≤◌, ◌<◌, cond};
ghost use Rattle.ratio.specs.Ratio.{at_most, is_none, smaller, times, ratio_by, side_by};
ghost use Rattle.ratio.specs.Small.{Small};

// It has no `PartialOrd`: with a denominator 0, which a limit that is none may have, the comparison is no order.
#[derive(Clone, Copy)]
pub struct Fraction {
    pub num: u32,
    pub den: u32,
}

// The ratios of a picture: the standard one, and the two limits.
#[derive(Clone, Copy)]
pub struct Ratios {
    pub standard: Fraction,
    pub least: Fraction,
    pub greatest: Fraction,
}

fn product(a: u32, b: u32) -> u64
    ensures { result ≡ a * b }
{
    a as u64 * b as u64
}

impl Fraction {
    // As a limit, it is none.
    pub fn is_none(self) -> bool
        ensures { result ≡ is_none self }
    {
        self.num == 0
    }

    pub fn at_most(self, other: Fraction) -> bool
        ensures { result ≡ at_most self other }
    {
        product(self.num, other.den) <= product(other.num, self.den)
    }

    #[tactic(auto, unfolding(crate::specs::Ratio::smaller))]
    fn smaller_of(self, other: Fraction) -> Fraction
        ensures { result ≡ smaller self other }
    {
        if self.at_most(other) { self } else { other }
    }

    #[tactic(auto, unfolding(crate::specs::Ratio::times))]
    fn times(self, other: Fraction) -> Fraction
        requires { Small self × Small other }
        ensures { result ≡ times self other }
    {
        Fraction {
            num: self.num * other.num,
            den: self.den * other.den,
        }
    }

    // The limit, where there is one and the fraction does not keep it; else the fraction itself.
    fn limited(self, limit: Fraction, keeps: bool) -> Fraction
        ensures { result ≡ cond (is_none limit) self (cond keeps self limit) }
    {
        if limit.is_none() || keeps {
            self
        } else {
            limit
        }
    }

    // A side at this ratio, rounded down.
    #[tactic(auto, unfolding(crate::specs::Ratio::side_by))]
    pub fn side(self, length: u32) -> u64
        requires { 0 < self.den }
        ensures { result ≡ side_by self length }
    {
        product(length, self.num) / self.den as u64
    }
}

impl Ratios {
    // A picture's ratio: the smaller of window over standard window, times the standard ratio, raised to the least and lowered to the greatest.
    pub fn in_window(self, across: Fraction, down: Fraction) -> Fraction
        requires { Small across × Small down × Small self.standard }
        ensures { result ≡ ratio_by across down self.standard self.least self.greatest }
    {
        let factor = across.smaller_of(down).times(self.standard);
        let raised = factor.limited(self.least, self.least.at_most(factor));
        raised.limited(self.greatest, raised.at_most(self.greatest))
    }
}
