// The calls that read the texts of an 'RDes' chunk, for programs in C.
ghost use Rattle.std.specs.Prelude.{◌≡◌};
ghost use Rattle.blorb.specs.Bytes.{rd32};
ghost use Rattle.descriptions.specs.Texts.{described_of, told_of};
ghost use Rattle.capi.specs.TextNumbers.{no_text, text_numbers, told_numbers};

use blorb::Refusal;
use descriptions::{Described, Told};

#[repr(C)]
#[derive(Clone, Copy)]
pub struct TextAnswer {
    pub refusal: u64,
    pub place: usize,
    pub usage: u32,
    pub number: u32,
    pub start: usize,
    pub length: usize,
}

fn no_text(refusal: Refusal) -> TextAnswer
    ensures { result ≡ no_text refusal.0 refusal.1 }
{
    TextAnswer {
        refusal: refusal.number(),
        place: refusal.place,
        usage: 0,
        number: 0,
        start: 0,
        length: 0,
    }
}

impl From<Result<Described, Refusal>> for TextAnswer {
    ghost from_gives = { λ answer numbers. numbers ≡ text_numbers answer };

    fn from(answer: Result<Described, Refusal>) -> TextAnswer {
        match answer {
            Ok(text) => TextAnswer {
                refusal: 0,
                place: 0,
                usage: text.usage,
                number: text.number,
                start: text.start,
                length: text.length,
            },
            Err(refusal) => no_text(refusal),
        }
    }
}

// Entry i of the file's 'RDes' under a profile: its pair, the usage as the number in its four bytes, and where its text is.
#[unsafe(no_mangle)]
pub extern "C" fn blorb_text(file: &[u8], profile: u32, i: usize) -> TextAnswer
    ensures { result ≡ text_numbers (described_of profile file.now i) }
{
    TextAnswer::from(descriptions::describe(file, profile, i as u64))
}

// The text of the pair (usage, number) under a profile, with the pair as it was asked for.
#[unsafe(no_mangle)]
pub extern "C" fn blorb_text_of(
    file: &[u8],
    profile: u32,
    usage: &[u8; 4],
    number: u32,
) -> TextAnswer
    ensures { result ≡ told_numbers (rd32 usage.now) number (told_of profile file.now (rd32 usage.now) number) }
{
    match descriptions::tell(file, profile, *usage, number) {
        Ok(text) => TextAnswer {
            refusal: 0,
            place: 0,
            usage: u32::from_be_bytes(*usage),
            number,
            start: text.start,
            length: text.length,
        },
        Err(refusal) => no_text(refusal),
    }
}
