// The call that writes descriptions, for programs in C.
ghost use Rattle.std.specs.Prelude.{◌≡◌, length};
ghost use Rattle.describing.specs.Writing.{writing_of, written_of};
ghost use Rattle.capi.specs.WriteNumbers.{write_numbers};

use blorb::Refusal;

#[repr(C)]
#[derive(Clone, Copy)]
pub struct WriteAnswer {
    pub refusal: u64,
    pub place: usize,
    pub length: usize,
}

impl From<Result<usize, Refusal>> for WriteAnswer {
    ghost from_gives = { λ answer numbers. numbers ≡ write_numbers answer };

    fn from(answer: Result<usize, Refusal>) -> WriteAnswer {
        match answer {
            Ok(length) => WriteAnswer {
                refusal: 0,
                place: 0,
                length,
            },
            Err(refusal) => WriteAnswer {
                refusal: refusal.number(),
                place: refusal.place,
                length: 0,
            },
        }
    }
}

// The whole 'RDes' chunk of a list, four numbers to a row, over a slice of texts: the bytes written, or the refusal with the first faulty row.
#[unsafe(no_mangle)]
pub extern "C" fn blorb_texts_write(rows: &[u32], texts: &[u8], buffer: &mut [u8]) -> WriteAnswer
    ensures { (result ≡ write_numbers (writing_of rows.now texts.now (length buffer.old)))
        × (buffer.new ≡ written_of rows.now texts.now buffer.old) }
{
    WriteAnswer::from(describing::write(rows, texts, buffer))
}
