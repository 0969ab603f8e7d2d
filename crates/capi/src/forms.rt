// The calls on the artists' group files for programs in C.
ghost use Rattle.std.specs.Prelude.{◌≡◌, length};
ghost use Rattle.groups.specs.Files.{list_of, listed, pick_of};
ghost use Rattle.capi.specs.TableNumbers.{build_numbers_of};
ghost use Rattle.capi.specs.FormNumbers.{pick_numbers_of};

use crate::BuildAnswer;
use blorb::Refusal;
use groups::Picked;

#[repr(C)]
#[derive(Clone, Copy)]
pub struct PickAnswer {
    pub refusal: u64,
    pub place: usize,
    pub start: usize,
    pub length: usize,
}

impl From<Result<Picked, Refusal>> for PickAnswer {
    ghost from_gives = { λ answer numbers. numbers ≡ pick_numbers_of answer };

    fn from(answer: Result<Picked, Refusal>) -> PickAnswer {
        match answer {
            Ok(form) => PickAnswer {
                refusal: 0,
                place: 0,
                start: form.start,
                length: form.length,
            },
            Err(refusal) => PickAnswer {
                refusal: refusal.number(),
                place: refusal.place,
                start: 0,
                length: 0,
            },
        }
    }
}

// The FORMs of a group file in file order, four numbers a row at the front of the slice.
#[unsafe(no_mangle)]
pub extern "C" fn blorb_forms_list(file: &[u8], rows: &mut [u32]) -> BuildAnswer
    ensures { (result ≡ build_numbers_of (list_of file.now (length rows.old)))
        × (rows.new ≡ listed file.now rows.old) }
{
    BuildAnswer::from(groups::list(file, rows))
}

// Where FORM i of a group file stands, header in and padding out.
#[unsafe(no_mangle)]
pub extern "C" fn blorb_forms_pick(file: &[u8], i: usize) -> PickAnswer
    ensures { result ≡ pick_numbers_of (pick_of file.now i) }
{
    PickAnswer::from(groups::pick(file, i))
}
