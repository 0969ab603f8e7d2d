// How long an AIFF plays, and what its 'COMM' chunk says of it.
#![tactic(auto)]

use blorb::{Fault, Refusal};

mod common;
mod rate;

ghost use Rattle.std.specs.Prelude.{◌≡◌, ◌+◌, ◌≤◌, length, take, drop};
ghost use Rattle.aiff.specs.Length.{sound_of, length_of};

// What a 'COMM' chunk says, and the whole seconds.
#[derive(Clone, Copy)]
pub struct Sound {
    pub channels: u16,
    pub frames: u32,
    pub sample_size: u16,
    pub rate: u32,
    pub seconds: u32,
}

// What the 18 bytes of the 'COMM' chunk at `at` say.
fn sound_at(s: &[u8], at: usize) -> Result<Sound, Refusal>
    requires { at + 26 ≤ length s.now }
    ensures { result ≡ sound_of (take 18 (drop (at + 8) s.now)) }
{
    let Some(rate) = rate::rate_at(s, at + 16) else {
        return Err(Refusal {
            fault: Fault::Rate,
            place: 0,
        });
    };
    let channels = rate::be16_at(s, at + 8);
    let frames = blorb::be32_at(s, at + 10) as u32;
    let sample_size = rate::be16_at(s, at + 14);
    Ok(Sound {
        channels,
        frames,
        sample_size,
        rate,
        seconds: frames / rate,
    })
}

// Channels, frames, sample size, rate and whole seconds of an AIFF as a lookup gives it, or the refusal: 49, 50 or 51.
pub fn length(bytes: &[u8]) -> Result<Sound, Refusal>
    ensures { result ≡ length_of bytes.now }
{
    if !common::is_aiff(bytes) {
        return Err(Refusal {
            fault: Fault::NotAiff,
            place: 0,
        });
    }
    let Some(at) = common::common_in(bytes) else {
        return Err(Refusal {
            fault: Fault::Common,
            place: 0,
        });
    };
    sound_at(bytes, at)
}
