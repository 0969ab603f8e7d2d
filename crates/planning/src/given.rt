// What add and replace are given: the data, which of type 'FORM' is a whole file.
ghost use Rattle.std.specs.Prelude.{◌≡◌, not, ◌||◌, eqb};
ghost use Rattle.blorb.specs.Tags.{FORM};
ghost use Rattle.edits.specs.Edit.{held, is_whole};

// Of type 'FORM' the data begins with 'FORM' and its size less 8; of other types it may be anything.
pub fn is_whole(kind: u32, d: &[u8]) -> bool
    ensures { result ≡ (not (eqb kind FORM) || is_whole d.now) }
{
    if kind as u64 != blorb::FORM {
        return true;
    }
    if d.len() < 8 {
        return false;
    }
    if blorb::be32_at(d, 0) != blorb::FORM {
        return false;
    }
    8 + blorb::be32_at(d, 4) == d.len() as u64
}

// The data as the chunk holds it: without the header that a lookup gives with a 'FORM'.
pub fn held(kind: u32, d: &[u8]) -> &[u8]
    ensures { result.now ≡ held kind d.now }
{
    let from = 8 - blorb::left_out(kind);
    if d.len() < from {
        return &d[0..0];
    }
    &d[from..]
}
