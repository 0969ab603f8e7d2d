// The call that tells at which size a picture is shown, for programs in C.
ghost use Rattle.std.specs.Prelude.{◌≡◌};
ghost use Rattle.scaling.specs.Scaled.{asking, scaled_of};
ghost use Rattle.capi.specs.ScalingNumbers.{scaled_numbers};

use blorb::Refusal;
use scaling::Sides;

#[repr(C)]
#[derive(Clone, Copy)]
pub struct ScaledAnswer {
    pub refusal: u64,
    pub place: usize,
    pub width: u64,
    pub height: u64,
}

impl From<Result<Sides, Refusal>> for ScaledAnswer {
    ghost from_gives = { λ answer numbers. numbers ≡ scaled_numbers answer };

    fn from(answer: Result<Sides, Refusal>) -> ScaledAnswer {
        match answer {
            Ok(sides) => ScaledAnswer {
                refusal: 0,
                place: 0,
                width: sides.width,
                height: sides.height,
            },
            Err(refusal) => ScaledAnswer {
                refusal: refusal.number(),
                place: refusal.place,
                width: 0,
                height: 0,
            },
        }
    }
}

// The sides of a picture of this number and size in a window, by the file's 'Reso' chunk.
#[unsafe(no_mangle)]
pub extern "C" fn blorb_scaled(
    file: &[u8],
    profile: u32,
    across: u64,
    down: u64,
    picture: u32,
    width: u64,
    height: u64,
) -> ScaledAnswer
    ensures { result ≡ scaled_numbers (scaled_of profile file.now (asking across down picture width height)) }
{
    ScaledAnswer::from(scaling::scaled(file, profile, across, down, picture, width, height))
}
