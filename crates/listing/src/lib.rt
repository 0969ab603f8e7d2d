// The listing of a Blorb file: what the lister prints, written into a lent buffer.
#![tactic(auto)]

ghost use Rattle.std.specs.Prelude.{◌≡◌, ◌+◌, ◌*◌, ◌≤◌, ◌++◌, length, drop, Ok};
ghost use Rattle.blorb.specs.Bytes.{be32, rd32};
ghost use Rattle.reader.specs.Reading.{accepted_with, index_of, read_of};
ghost use Rattle.index.specs.Entries.{start_at};
ghost use Rattle.listing.specs.Text.{decimal};
ghost use Rattle.listing.specs.Listing.{head_line, refused_line, lines_of, listing_by, listing_of, input_listing, room_by, room_for, input_room, listed_in, out_by};
ghost use Rattle.listing.specs.InPlace.{Writes, fields_at, chunk_text, line_at};

use blorb::{Fault, Refusal};
use reader::Accepted;

const TOO_LONG: Refusal = Refusal {
    fault: Fault::TooLong,
    place: 0,
};

// A lent buffer that text is written into from `at` on.
#[derive(Drop)]
struct Page<'a> {
    out: &'a mut [u8],
    at: usize,
}

impl Page<'_> {
    fn text(&mut self, text: &[u8])
        requires { self.old.at + length text.now ≤ length self.old.out.now }
        ensures { Writes self.old text.now self.new }
    {
        let to = self.at + text.len();
        self.out[self.at..to].copy_from_slice(text);
        self.at = to;
    }

    // The number's digits, the last of them last. By hand: what `write!` promises holds where it answers Ok, and not when it does.
    fn decimal(&mut self, n: u64)
        requires { self.old.at + length (decimal n) ≤ length self.old.out.now }
        ensures { Writes self.old (decimal n) self.new }
    {
        if n < 10 {
            self.text(&[48 + n as u8]);
            return;
        }
        self.decimal(n / 10);
        self.text(&[48 + (n % 10) as u8]);
    }

    // A text and a number.
    fn number(&mut self, text: &[u8], n: u64)
        requires { self.old.at + (length text.now + length (decimal n)) ≤ length self.old.out.now }
        ensures { Writes self.old (text.now ++ decimal n) self.new }
    {
        self.text(text);
        self.decimal(n);
    }

    // The four bytes of a usage or a type, which stand at `from` in the file.
    fn tag(&mut self, file: &[u8], from: usize)
        requires { (from + 4 ≤ length file.now) × (self.old.at + 4 ≤ length self.old.out.now) }
        ensures { Writes self.old (be32 (rd32 (drop from file.now))) self.new
            × (self.new.at ≡ self.old.at + 4) }
    {
        self.text(&file[from..from + 4]);
    }

    // Usage, number and start of the entry at `p`.
    fn fields(&mut self, file: &[u8], p: usize)
        requires { (p + 12 ≤ length file.now) × (self.old.at + 29 ≤ length self.old.out.now) }
        ensures { Writes self.old (fields_at file.now p) self.new × (self.new.at ≤ self.old.at + 29) }
    {
        let number = blorb::be32_at(file, p + 4);
        let start = blorb::be32_at(file, p + 8);
        self.tag(file, p);
        self.number(b" ", number);
        self.number(b" at ", start);
    }

    // Type of the chunk at `start`, the length of what a lookup gives of it, and the line's end.
    fn chunk(&mut self, file: &[u8], start: usize)
        requires { (start + 8 ≤ length file.now) × (self.old.at + 17 ≤ length self.old.out.now) }
        ensures { Writes self.old (chunk_text file.now start) self.new
            × (self.new.at ≤ self.old.at + 17) }
    {
        let kind = blorb::be32_at(file, start) as u32;
        let length = 8 + blorb::be32_at(file, start + 4) - blorb::left_out(kind) as u64;
        self.text(b" ");
        self.tag(file, start);
        self.number(b" ", length);
        self.text(b"\n");
    }

    // The line of the entry at `p`.
    fn entry(&mut self, file: &[u8], p: usize)
        requires { (p + 12 ≤ length file.now) × (start_at file.now p + 8 ≤ length file.now) × (self.old.at + 48 ≤ length self.old.out.now) }
        ensures { Writes self.old (line_at file.now p) self.new × (self.new.at ≤ self.old.at + 48) }
    {
        let start = blorb::be32_at(file, p + 8) as usize;
        self.fields(file, p);
        self.chunk(file, start);
    }

    // The lines of an accepted file's entries, in index order.
    fn entries(&mut self, file: &[u8], count: usize)
        requires { (read_of 0 file.now ≡ accepted_with (length file.now) count) × (self.old.at + 48 * count ≤ length self.old.out.now) }
        ensures { Writes self.old (lines_of file.now (index_of file.now)) self.new
            × (self.new.at ≤ self.old.at + 48 * count) }
    {
        for i in 0..count {
            self.entry(file, 24 + 12 * i);
        }
    }

    // The first line of an accepted file's listing: `blorb 48 bytes 1 resources`.
    fn head(&mut self, size: usize, count: usize)
        requires { self.old.at + 64 ≤ length self.old.out.now }
        ensures { Writes self.old (head_line size count) self.new × (self.new.at ≤ self.old.at + 64) }
    {
        self.number(b"blorb ", size as u64);
        self.number(b" bytes ", count as u64);
        self.text(b" resources\n");
    }

    // The one line `refused 7 at 47`.
    fn refusal(&mut self, number: u64, place: usize)
        requires { self.old.at + 64 ≤ length self.old.out.now }
        ensures { Writes self.old (refused_line number place) self.new × (self.new.at ≤ self.old.at + 64) }
    {
        self.number(b"refused ", number);
        self.number(b" at ", place as u64);
        self.text(b"\n");
    }
}

// The first line takes at most 64 bytes and an entry's line at most 48.
fn list_accepted(file: &[u8], accepted: Accepted, out: &mut [u8]) -> Option<usize>
    requires { read_of 0 file.now ≡ Ok accepted }
    ensures { (result ≡ listed_in (length out.old) (room_by (Ok accepted)) (listing_by file.now (Ok accepted)))
        × (out.new ≡ out_by result (listing_by file.now (Ok accepted)) out.old) }
{
    if out.len() < 64 + 48 * accepted.count {
        return None;
    }
    let mut page = Page { out, at: 0 };
    page.head(accepted.length, accepted.count);
    page.entries(file, accepted.count);
    Some(page.at)
}

fn list_refused(r: Refusal, out: &mut [u8]) -> Option<usize>
    ensures { (result ≡ listed_in (length out.old) 64 (refused_line r.0 r.1)) × (out.new ≡ out_by result (refused_line r.0 r.1) out.old) }
{
    if out.len() < 64 {
        return None;
    }
    let mut page = Page { out, at: 0 };
    page.refusal(r.number(), r.place);
    Some(page.at)
}

// The listing of a file: how many bytes it takes up in the buffer. One with less than the listing's room stays as it is.
// The file is validated once; entries and chunk headers are then read where they stand.
pub fn list(file: &[u8], out: &mut [u8]) -> Option<usize>
    ensures { (result ≡ listed_in (length out.old) (room_for file.now) (listing_of file.now))
        × (out.new ≡ out_by result (listing_of file.now) out.old) }
{
    match reader::read(file, 0) {
        Ok(accepted) => list_accepted(file, accepted, out),
        Err(r) => list_refused(r, out),
    }
}

// The listing of the lister's input: of the bytes that were read, or its refusal, if more follow or these are over 65,536.
pub fn list_input(file: &[u8], longer: bool, out: &mut [u8]) -> Option<usize>
    ensures { (result ≡ listed_in (length out.old) (input_room file.now longer) (input_listing file.now longer))
        × (out.new ≡ out_by result (input_listing file.now longer) out.old) }
{
    if longer {
        return list_refused(TOO_LONG, out);
    }
    if 65536 < file.len() {
        return list_refused(TOO_LONG, out);
    }
    list(file, out)
}
