// Scaled pictures: the sides at which a picture is shown in a window, by the file's 'Reso' chunk (02, P4).
#![tactic(auto)]

ghost use Rattle.std.specs.Prelude.{◌≡◌, ◌+◌, ◌≤◌, true, length};
ghost use Rattle.reso.specs.Reso.{row_at, row_good_of, rows_of, window_good_of, reso_good, row_of};
ghost use Rattle.scaling.specs.Scaled.{asking, sides_fit_of, row_ratio_of, row_sides, reso_scaled, unscaled, scaled_of};

use blorb::{Fault, Refusal};
use locate::Located;
use ratio::Fraction;
use reso::Reso;

// What a call asks: the window, and the picture with its size.
#[derive(Clone, Copy)]
pub struct Asking {
    pub across: u64,
    pub down: u64,
    pub picture: u32,
    pub width: u64,
    pub height: u64,
}

// The sides at which a picture is shown.
#[derive(Clone, Copy)]
pub struct Sides {
    pub width: u64,
    pub height: u64,
}

const RESO: u64 = 0x5265736f;

impl Asking {
    #[tactic(auto, unfolding(crate::specs::Scaled::sides_fit_of))]
    fn sides_fit(self) -> bool
        ensures { result ≡ sides_fit_of self }
    {
        self.across <= 65535 && self.down <= 65535 && self.width <= 65535 && self.height <= 65535
    }

    // The picture's own.
    fn sides(self) -> Sides
        ensures { (result.width ≡ self.width) × (result.height ≡ self.height) }
    {
        Sides {
            width: self.width,
            height: self.height,
        }
    }
}

// Without a 'Reso'.
#[tactic(auto, unfolding(crate::specs::Scaled::unscaled))]
fn keep_sides(a: Asking) -> Result<Sides, Refusal>
    ensures { result ≡ unscaled a }
{
    if a.sides_fit() {
        Ok(a.sides())
    } else {
        Err(Refusal {
            fault: Fault::ResoNumber,
            place: 0,
        })
    }
}

// The ratio of the row at `at` in this window.
fn row_ratio(reso: &Reso, at: usize, a: Asking) -> Fraction
    requires { (at + 28 ≤ length reso.now.bytes.now) × (window_good_of reso.now.bytes.now ≡ true)
        × (row_good_of (row_at reso.now.bytes.now at) ≡ true) × (sides_fit_of a ≡ true) }
    ensures { result ≡ row_ratio_of reso.now.bytes.now a (row_at reso.now.bytes.now at) }
{
    let window = reso::fraction_at(reso.bytes, 0);
    let across = Fraction {
        num: a.across as u32,
        den: window.num,
    };
    let down = Fraction {
        num: a.down as u32,
        den: window.den,
    };
    reso::ratios_at(reso.bytes, at).in_window(across, down)
}

// The sides by a good 'Reso'.
fn sides_by(reso: &Reso, a: Asking) -> Sides
    requires { (reso_good reso.now.bytes.now ≡ true) × (sides_fit_of a ≡ true) }
    ensures { Ok result ≡ row_sides reso.now.bytes.now a (row_of a.picture (rows_of reso.now.bytes.now)) }
{
    let Some(at) = reso.find_row(a.picture) else {
        return a.sides();
    };
    let r = row_ratio(reso, at, a);
    Sides {
        width: r.side(a.width as u32),
        height: r.side(a.height as u32),
    }
}

// Refusals 32 and 33 of the only 'Reso', which stands at `start` and has the data d; and the sides.
#[tactic(auto, unfolding(crate::specs::Scaled::reso_scaled))]
fn by_reso(d: &[u8], start: usize, a: Asking) -> Result<Sides, Refusal>
    ensures { result ≡ reso_scaled d.now start a }
{
    let Some(reso) = Reso::of(d) else {
        return Err(Refusal {
            fault: Fault::ResoLength,
            place: start,
        });
    };
    if reso.is_good() && a.sides_fit() {
        Ok(sides_by(&reso, a))
    } else {
        Err(Refusal {
            fault: Fault::ResoNumber,
            place: 0,
        })
    }
}

// The sides of a picture in a window, or the first refusal: the reader's own, 31, 32, 33.
pub fn scaled(
    file: &[u8],
    profile: u32,
    across: u64,
    down: u64,
    picture: u32,
    width: u64,
    height: u64,
) -> Result<Sides, Refusal>
    ensures { result ≡ scaled_of profile file.now (asking across down picture width height) }
{
    let a = Asking {
        across,
        down,
        picture,
        width,
        height,
    };
    let located = locate::by_type(file, profile, RESO)?;
    match located {
        Located::More { second, .. } => Err(Refusal {
            fault: Fault::SecondReso,
            place: second,
        }),
        Located::Nothing => keep_sides(a),
        Located::One { start, length } => {
            let from = start + 8;
            by_reso(&file[from..from + length], start, a)
        }
    }
}
