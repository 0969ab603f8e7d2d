// EA IFF 85 files of FORMs and groups: the list of their FORMs, and one FORM's bytes.
#![tactic(auto)]

mod part;
mod readers;
mod store;

ghost use Rattle.std.specs.Prelude.{◌≡◌, length};
ghost use Rattle.groups.specs.Files.{list_of, listed, pick_of, part_of, part_at};

use blorb::{Fault, Refusal};
pub use part::Picked;

// The FORMs in file order, four numbers a row at the front of `rows`; how many there are.
pub fn list(file: &[u8], rows: &mut [u32]) -> Result<usize, Refusal>
    ensures { (result ≡ list_of file.now (length rows.old)) × (rows.new ≡ listed file.now rows.old) }
{
    let mut none = [0u32; 1];
    let n = readers::scan_file(file, &mut none, 0)?;
    if rows.len() / 4 < n {
        return Err(Refusal {
            fault: Fault::FormsRoom,
            place: 0,
        });
    }
    readers::scan_file(file, rows, 0)
}

// Where FORM i stands.
pub fn pick(file: &[u8], i: usize) -> Result<Picked, Refusal>
    ensures { result ≡ pick_of file.now i }
{
    let mut row = [0u32; 4];
    let n = readers::scan_file(file, &mut row, i)?;
    if n <= i {
        return Err(Refusal {
            fault: Fault::NotThere,
            place: 0,
        });
    }
    Ok(Picked {
        start: row[1] as usize,
        length: 8 + row[2] as usize,
    })
}

// FORM i's bytes, where they lie in `file`; empty, at its first byte, where pick refuses.
pub fn picked(file: &[u8], i: usize) -> &[u8]
    ensures { (result.now ≡ part_of (pick_of file.now i) file.now)
        × (result.ref_ptr ≡ part_at (pick_of file.now i) file.entry.ref_ptr) }
{
    match pick(file, i) {
        Ok(part) => &file[part.start..part.start + part.length],
        Err(_) => &file[0..0],
    }
}
