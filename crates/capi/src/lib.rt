// The calls of reader, editor and table for programs in C; include/blorb.h declares them.
// Sounds, group files, scaled pictures and spoken descriptions have modules of their own.
#![tactic(auto)]

use blorb::{Entry, Refusal};
use editor::Answer;
use reader::{Accepted, Resource};
use table::Searched;

mod forms;
mod pictures;
mod sounds;
mod texts;
mod writing;

ghost use Rattle.std.specs.Prelude.{◌≡◌, length, leb};
ghost use Rattle.blorb.specs.Bytes.{rd32};
ghost use Rattle.reader.specs.Reading.{read_of, asked_of, lookup_of};
ghost use Rattle.rows.specs.Rows.{rows_of, columns_of, flat, flat_columns};
ghost use Rattle.table.specs.Answers.{table_of, build_of, turn_of, written, check_of, search_of};
ghost use Rattle.edits.specs.Edit.{add, replace, remove, link};
ghost use Rattle.edits.specs.Run.{edit, undo};
ghost use Rattle.edits.specs.Blank.{blanked};
ghost use Rattle.edits.specs.Run.{state};
ghost use Rattle.editor.specs.Called.{blank_answer};
ghost use Rattle.capi.specs.Numbers.{read_numbers, entry_numbers, lookup_numbers, edit_numbers};
ghost use Rattle.capi.specs.TableNumbers.{build_numbers_of, check_numbers_of, search_numbers_of};
ghost use Rattle.capi.specs.Answered.{Answered};
ghost use Rattle.capi.specs.Version.{version_number};

// In every answer `refusal` is 0 where the call was carried out; then `place` is 0 too. What a refusal leaves out is 0.
#[repr(C)]
#[derive(Clone, Copy)]
pub struct ReadAnswer {
    pub refusal: u64,
    pub place: usize,
    pub length: usize,
    pub count: usize,
}

#[repr(C)]
#[derive(Clone, Copy)]
pub struct EntryAnswer {
    pub refusal: u64,
    pub place: usize,
    pub usage: u32,
    pub number: u32,
    pub start: u64,
}

#[repr(C)]
#[derive(Clone, Copy)]
pub struct LookupAnswer {
    pub refusal: u64,
    pub place: usize,
    pub kind: u32,
    pub start: usize,
    pub length: usize,
}

#[repr(C)]
#[derive(Clone, Copy)]
pub struct EditAnswer {
    pub refusal: u64,
    pub place: usize,
    pub length: usize,
    pub used: usize,
}

#[repr(C)]
#[derive(Clone, Copy)]
pub struct BuildAnswer {
    pub refusal: u64,
    pub place: usize,
    pub rows: usize,
}

#[repr(C)]
#[derive(Clone, Copy)]
pub struct CheckAnswer {
    pub refusal: u64,
    pub place: usize,
}

#[repr(C)]
#[derive(Clone, Copy)]
pub struct SearchAnswer {
    pub refusal: u64,
    pub place: usize,
    pub start: u64,
    pub probes: usize,
}

impl From<Result<Accepted, Refusal>> for ReadAnswer {
    ghost from_gives = { λ answer numbers. numbers ≡ read_numbers answer };

    fn from(answer: Result<Accepted, Refusal>) -> ReadAnswer {
        match answer {
            Ok(file) => ReadAnswer {
                refusal: 0,
                place: 0,
                length: file.length,
                count: file.count,
            },
            Err(refusal) => ReadAnswer {
                refusal: refusal.number(),
                place: refusal.place,
                length: 0,
                count: 0,
            },
        }
    }
}

impl From<Result<Entry, Refusal>> for EntryAnswer {
    ghost from_gives = { λ answer numbers. numbers ≡ entry_numbers answer };

    fn from(answer: Result<Entry, Refusal>) -> EntryAnswer {
        match answer {
            Ok(entry) => EntryAnswer {
                refusal: 0,
                place: 0,
                usage: entry.usage.code() as u32,
                number: entry.number,
                start: entry.start as u64,
            },
            Err(refusal) => EntryAnswer {
                refusal: refusal.number(),
                place: refusal.place,
                usage: 0,
                number: 0,
                start: 0,
            },
        }
    }
}

impl From<Result<Resource, Refusal>> for LookupAnswer {
    ghost from_gives = { λ answer numbers. numbers ≡ lookup_numbers answer };

    fn from(answer: Result<Resource, Refusal>) -> LookupAnswer {
        match answer {
            Ok(found) => LookupAnswer {
                refusal: 0,
                place: 0,
                kind: found.kind,
                start: found.start,
                length: found.length,
            },
            Err(missing) => LookupAnswer {
                refusal: missing.number(),
                place: missing.place,
                kind: 0,
                start: 0,
                length: 0,
            },
        }
    }
}

impl From<Answer> for EditAnswer {
    ghost from_gives = { λ answer numbers. numbers ≡ edit_numbers answer };

    fn from(answer: Answer) -> EditAnswer {
        match answer.outcome {
            Ok(()) => EditAnswer {
                refusal: 0,
                place: 0,
                length: answer.len,
                used: answer.used,
            },
            Err(refusal) => EditAnswer {
                refusal: refusal.number(),
                place: refusal.place,
                length: answer.len,
                used: answer.used,
            },
        }
    }
}

impl From<Result<usize, Refusal>> for BuildAnswer {
    ghost from_gives = { λ answer numbers. numbers ≡ build_numbers_of answer };

    fn from(answer: Result<usize, Refusal>) -> BuildAnswer {
        match answer {
            Ok(rows) => BuildAnswer {
                refusal: 0,
                place: 0,
                rows,
            },
            Err(refusal) => BuildAnswer {
                refusal: refusal.number(),
                place: refusal.place,
                rows: 0,
            },
        }
    }
}

impl From<Result<(), Refusal>> for CheckAnswer {
    ghost from_gives = { λ answer numbers. numbers ≡ check_numbers_of answer };

    fn from(answer: Result<(), Refusal>) -> CheckAnswer {
        match answer {
            Ok(()) => CheckAnswer {
                refusal: 0,
                place: 0,
            },
            Err(refusal) => CheckAnswer {
                refusal: refusal.number(),
                place: refusal.place,
            },
        }
    }
}

impl From<Searched> for SearchAnswer {
    ghost from_gives = { λ answer numbers. numbers ≡ search_numbers_of answer };

    fn from(answer: Searched) -> SearchAnswer {
        match answer.found {
            Ok(start) => SearchAnswer {
                refusal: 0,
                place: 0,
                start: start as u64,
                probes: answer.probes,
            },
            Err(refusal) => SearchAnswer {
                refusal: refusal.number(),
                place: refusal.place,
                start: 0,
                probes: answer.probes,
            },
        }
    }
}

// The archive's version: 2.6.0.
#[unsafe(no_mangle)]
pub extern "C" fn blorb_version() -> u32
    ensures { result ≡ version_number 2 6 0 }
{
    2006000
}

// The verdict under a profile, 0 plain and 1 ADRIFT: the length and the entry count of an accepted file.
#[unsafe(no_mangle)]
pub extern "C" fn blorb_read(file: &[u8], profile: u32) -> ReadAnswer
    ensures { result ≡ read_numbers (read_of profile file.now) }
{
    ReadAnswer::from(reader::read(file, profile))
}

// Entry i of the index; its usage as the number in its four bytes.
#[unsafe(no_mangle)]
pub extern "C" fn blorb_entry(file: &[u8], profile: u32, i: usize) -> EntryAnswer
    ensures { result ≡ entry_numbers (asked_of profile file.now i) }
{
    EntryAnswer::from(reader::entry(file, profile, i))
}

// The chunk of the entry (usage, number): its type, and where its data is; of a 'FORM' where the whole chunk is, without padding.
#[unsafe(no_mangle)]
pub extern "C" fn blorb_lookup(
    file: &[u8],
    profile: u32,
    usage: &[u8; 4],
    number: u32,
) -> LookupAnswer
    ensures { result ≡ lookup_numbers (lookup_of profile file.now (rd32 usage.now) number) }
{
    LookupAnswer::from(reader::lookup(file, profile, *usage, number))
}

// The blank file in the first 24 bytes.
#[unsafe(no_mangle)]
pub extern "C" fn blorb_blank(file: &mut [u8]) -> EditAnswer
    ensures { (result ≡ edit_numbers (blank_answer (leb 24 (length file.old)))) × (file.new ≡ blanked file.old) }
{
    EditAnswer::from(editor::blank(file))
}

// Adds a resource to the first `length` bytes; its record goes to the journal at `used`. Of type 'FORM' the data is a whole file.
#[unsafe(no_mangle)]
pub extern "C" fn blorb_add(
    file: &mut [u8],
    length: usize,
    journal: &mut [u8],
    used: usize,
    profile: u32,
    usage: &[u8; 4],
    number: u32,
    kind: &[u8; 4],
    data: &[u8],
) -> EditAnswer
    ensures { Answered profile (state file.old length journal.old used)
        (edit (add (rd32 usage.now) number (rd32 kind.now) «data».now)) result file.new journal.new }
{
    EditAnswer::from(editor::add(
        file, length, journal, used, profile, *usage, number, *kind, data,
    ))
}

// Gives a resource another type and other data.
#[unsafe(no_mangle)]
pub extern "C" fn blorb_replace(
    file: &mut [u8],
    length: usize,
    journal: &mut [u8],
    used: usize,
    profile: u32,
    usage: &[u8; 4],
    number: u32,
    kind: &[u8; 4],
    data: &[u8],
) -> EditAnswer
    ensures { Answered profile (state file.old length journal.old used)
        (edit (replace (rd32 usage.now) number (rd32 kind.now) «data».now)) result file.new journal.new }
{
    EditAnswer::from(editor::replace(
        file, length, journal, used, profile, *usage, number, *kind, data,
    ))
}

// Removes a resource, and its chunk unless another entry has it.
#[unsafe(no_mangle)]
pub extern "C" fn blorb_remove(
    file: &mut [u8],
    length: usize,
    journal: &mut [u8],
    used: usize,
    profile: u32,
    usage: &[u8; 4],
    number: u32,
) -> EditAnswer
    ensures { Answered profile (state file.old length journal.old used) (edit (remove (rd32 usage.now) number)) result
        file.new journal.new }
{
    EditAnswer::from(editor::remove(file, length, journal, used, profile, *usage, number))
}

// Gives the resource (usage, number) a second name: a new entry (alias, chosen) on its chunk.
#[unsafe(no_mangle)]
pub extern "C" fn blorb_link(
    file: &mut [u8],
    length: usize,
    journal: &mut [u8],
    used: usize,
    profile: u32,
    usage: &[u8; 4],
    number: u32,
    alias: &[u8; 4],
    chosen: u32,
) -> EditAnswer
    ensures { Answered profile (state file.old length journal.old used)
        (edit (link (rd32 usage.now) number (rd32 alias.now) chosen)) result file.new journal.new }
{
    EditAnswer::from(editor::link(
        file, length, journal, used, profile, *usage, number, *alias, chosen,
    ))
}

// Takes the last edit back; the journal is only read.
#[unsafe(no_mangle)]
pub extern "C" fn blorb_undo(
    file: &mut [u8],
    length: usize,
    journal: &[u8],
    used: usize,
    profile: u32,
) -> EditAnswer
    ensures { Answered profile (state file.old length journal.now used) undo result file.new journal.now }
{
    EditAnswer::from(editor::undo(file, length, journal, used, profile))
}

// The file's finding table at the front of the slice.
#[unsafe(no_mangle)]
pub extern "C" fn blorb_table_build(file: &[u8], profile: u32, table: &mut [u32]) -> BuildAnswer
    ensures { (result ≡ build_numbers_of (build_of profile file.now (length table.old)))
        × (table.new ≡ written (build_of profile file.now (length table.old)) (flat (table_of file.now))
        table.old) }
{
    BuildAnswer::from(table::build(file, profile, table))
}

// Whether the whole slice is just this file's table.
#[unsafe(no_mangle)]
pub extern "C" fn blorb_table_check(file: &[u8], profile: u32, table: &[u32]) -> CheckAnswer
    ensures { result ≡ check_numbers_of (check_of profile file.now (rows_of table.now) (length table.now)) }
{
    CheckAnswer::from(table::check(file, profile, table))
}

// The start in the row (usage, number), and how many rows were looked at.
#[unsafe(no_mangle)]
pub extern "C" fn blorb_table_search(table: &[u32], usage: &[u8; 4], number: u32) -> SearchAnswer
    ensures { result ≡ search_numbers_of (search_of (rows_of table.now) (rd32 usage.now) number) }
{
    SearchAnswer::from(table::search(table, *usage, number))
}

// The rows of a table as three columns at the front of a second slice.
#[unsafe(no_mangle)]
pub extern "C" fn blorb_table_to_columns(table: &[u32], columns: &mut [u32]) -> BuildAnswer
    ensures { (result ≡ build_numbers_of (turn_of (rows_of table.now) (length columns.old)))
        × (columns.new ≡ written (turn_of (rows_of table.now) (length columns.old)) (flat_columns (rows_of table.now))
        columns.old) }
{
    BuildAnswer::from(table::to_columns(table, columns))
}

// The rows of a table of three columns, one after another at the front of a second slice.
#[unsafe(no_mangle)]
pub extern "C" fn blorb_table_to_rows(columns: &[u32], table: &mut [u32]) -> BuildAnswer
    ensures { (result ≡ build_numbers_of (turn_of (columns_of columns.now) (length table.old)))
        × (table.new ≡ written (turn_of (columns_of columns.now) (length table.old)) (flat (columns_of columns.now))
        table.old) }
{
    BuildAnswer::from(table::to_rows(columns, table))
}

// Whether the whole slice is just this file's table in three columns.
#[unsafe(no_mangle)]
pub extern "C" fn blorb_columns_check(file: &[u8], profile: u32, columns: &[u32]) -> CheckAnswer
    ensures { result ≡ check_numbers_of (check_of profile file.now (columns_of columns.now) (length columns.now)) }
{
    CheckAnswer::from(table::columns_check(file, profile, columns))
}

// The start in the row (usage, number) of a table of three columns, and how many rows were looked at.
#[unsafe(no_mangle)]
pub extern "C" fn blorb_columns_search(
    columns: &[u32],
    usage: &[u8; 4],
    number: u32,
) -> SearchAnswer
    ensures { result ≡ search_numbers_of (search_of (columns_of columns.now) (rd32 usage.now) number) }
{
    SearchAnswer::from(table::columns_search(columns, *usage, number))
}
