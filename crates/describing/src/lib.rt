// Writing descriptions (02, P7): the whole 'RDes' chunk of a list, header and padding in, into a lent buffer.
#![tactic(auto)]

ghost use Rattle.std.specs.Prelude.{◌≡◌, length};
ghost use Rattle.describing.specs.Writing.{writing_of, written_of};

use blorb::{Fault, Refusal};

mod chunk;
mod judge;
mod row;

// The buffer is too small, or the chunk would be over the limit.
fn no_room() -> Refusal
    ensures { result ≡ (40, 0) }
{
    Refusal {
        fault: Fault::RdesRoom,
        place: 0,
    }
}

// Writes the list and answers how long the chunk is. A row of the list is four numbers: usage, number, and place and length of its text in `texts`. A
// partial last row is none. A call that is refused has written nothing; one that isn't leaves the bytes behind the chunk as they were.
pub fn write(rows: &[u32], texts: &[u8], buf: &mut [u8]) -> Result<usize, Refusal>
    ensures { (result ≡ writing_of rows.now texts.now (length buf.old))
        × (buf.new ≡ written_of rows.now texts.now buf.old) }
{
    let n = rows.len() / 4;
    judge::judge(rows, texts, n)?;
    let Some(m) = chunk::data_size(rows, n) else {
        return Err(no_room());
    };
    let size = 8 + (m + m % 2);
    if (16777216 < size) | (buf.len() < size) {
        return Err(no_room());
    }
    chunk::put_list(buf, rows, texts, n, m);
    Ok(size)
}
