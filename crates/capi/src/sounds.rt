// The call that tells how long an AIFF plays, for programs in C.
ghost use Rattle.std.specs.Prelude.{◌≡◌};
ghost use Rattle.aiff.specs.Length.{length_of};
ghost use Rattle.capi.specs.SoundNumbers.{aiff_numbers};

use aiff::Sound;
use blorb::Refusal;

#[repr(C)]
#[derive(Clone, Copy)]
pub struct AiffAnswer {
    pub refusal: u64,
    pub place: usize,
    pub channels: u32,
    pub frames: u32,
    pub sample_size: u32,
    pub rate: u32,
    pub seconds: u32,
}

impl From<Result<Sound, Refusal>> for AiffAnswer {
    ghost from_gives = { λ answer numbers. numbers ≡ aiff_numbers answer };

    fn from(answer: Result<Sound, Refusal>) -> AiffAnswer {
        match answer {
            Ok(sound) => AiffAnswer {
                refusal: 0,
                place: 0,
                channels: sound.channels as u32,
                frames: sound.frames,
                sample_size: sound.sample_size as u32,
                rate: sound.rate,
                seconds: sound.seconds,
            },
            Err(refusal) => AiffAnswer {
                refusal: refusal.number(),
                place: refusal.place,
                channels: 0,
                frames: 0,
                sample_size: 0,
                rate: 0,
                seconds: 0,
            },
        }
    }
}

// What an AIFF's 'COMM' chunk says, and its whole seconds. The bytes are those that a lookup gives of it: the whole 'FORM', without padding.
#[unsafe(no_mangle)]
pub extern "C" fn blorb_aiff_length(bytes: &[u8]) -> AiffAnswer
    ensures { result ≡ aiff_numbers (length_of bytes.now) }
{
    AiffAnswer::from(aiff::length(bytes))
}
