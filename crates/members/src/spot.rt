// A place where a member may begin: its header, and its refusals: 41 to 44.
ghost use Rattle.std.specs.Prelude.{◌≡◌, ◌+◌, ◌≤◌, ◌<◌, ◌^◌, ◌&&◌, ltb, length};
ghost use Rattle.blorb.specs.Refusals.{verdict_of};
ghost use Rattle.members.specs.Kinds.{nests};
ghost use Rattle.members.specs.Faults.{kind_at, size_at, end_at, next_at, fits, padded, member_fault_of};

use crate::{Kind, Place};
use blorb::{Fault, Refusal};

// Byte `at` of a file. A member that begins there stands in `place` at this depth; `end` is where that ends.
#[derive(Clone, Copy)]
pub struct Spot<'a> {
    pub file: &'a [u8],
    pub place: Place,
    pub depth: usize,
    pub end: usize,
    pub at: usize,
    pub ghost inside: { end ≤ length file.now },
}

impl<'a> Spot<'a> {
    pub fn kind(&self) -> Kind
        requires { self.now.at + 8 ≤ length self.now.file.now }
        ensures { result ≡ kind_at self.now.file.now self.now.at }
    {
        Kind::from(blorb::be32_at(self.file, self.at))
    }

    pub fn size(&self) -> usize
        requires { self.now.at + 8 ≤ length self.now.file.now }
        ensures { (result ≡ size_at self.now.file.now self.now.at) × (result < 2 ^ 32) }
    {
        blorb::be32_at(self.file, self.at + 4) as usize
    }

    // Where its data ends.
    pub fn close(&self) -> usize
        requires { self.now.at + 8 ≤ length self.now.file.now }
        ensures { result ≡ end_at self.now.file.now self.now.at }
    {
        self.at + 8 + self.size()
    }

    // Where the next member begins.
    pub fn next(&self) -> usize
        requires { self.now.at + 8 ≤ length self.now.file.now }
        ensures { result ≡ next_at self.now.file.now self.now.at }
    {
        let m = self.size();
        self.at + 8 + m + m % 2
    }

    // 41 for the header and the sizes.
    fn fits(&self) -> bool
        ensures { result ≡ fits self.now.file.now self.now.end self.now.at }
    {
        if self.end < 8 || self.end - 8 < self.at {
            return false;
        }
        if self.end < self.close() {
            return false;
        }
        self.kind().is_plain() || 4 <= self.size()
    }

    // 42: FORMs and groups have 16 levels.
    fn is_too_deep(&self, kind: Kind) -> bool
        ensures { result ≡ (nests kind && ltb 16 self.now.depth) }
    {
        kind.is_nest() && 16 < self.depth
    }

    // 44: the padding byte is there and zero.
    pub fn is_padded(&self) -> bool
        requires { self.now.at + 8 ≤ self.now.end }
        ensures { result ≡ padded self.now.file.now self.now.end self.now.at }
    {
        if self.size() % 2 == 0 {
            return true;
        }
        let close = self.close();
        close < self.end && self.file[close] == 0
    }

    // The refusals of one chunk.
    pub fn fault(&self) -> Result<(), Refusal>
        ensures { verdict_of result
            ≡ member_fault_of self.now.file.now self.now.place self.now.depth self.now.end self.now.at }
    {
        if !self.fits() {
            return Err(Refusal {
                fault: Fault::GroupSize,
                place: self.at,
            });
        }
        let kind = self.kind();
        if self.is_too_deep(kind) {
            return Err(Refusal {
                fault: Fault::GroupDepth,
                place: self.at,
            });
        }
        if !self.place.may_hold(kind) {
            return Err(Refusal {
                fault: Fault::GroupMember,
                place: self.at,
            });
        }
        if !self.is_padded() {
            return Err(Refusal {
                fault: Fault::GroupPadding,
                place: self.at,
            });
        }
        Ok(())
    }

    // Where the members begin of what stands here, whose data ends at `close`.
    pub fn within(&self, inside: Place, close: usize) -> Spot<'a>
        requires { (self.now.at ≤ length self.now.file.now) × (close ≤ length self.now.file.now) × (self.now.depth ≤ 17) }
        ensures { (result.file ≡ self.now.file) × (result.place ≡ inside) × (result.depth ≡ self.now.depth + 1)
            × (result.end ≡ close) × (result.at ≡ self.now.at + 12) }
    {
        Spot {
            file: self.file,
            place: inside,
            depth: self.depth + 1,
            end: close,
            at: self.at + 12,
        }
    }

    // On to a place further on in the same FORM, group or PROP.
    pub fn move_to(&mut self, at: usize, place: Place)
        ensures { (self.new.file ≡ self.old.file) × (self.new.place ≡ place) × (self.new.depth ≡ self.old.depth)
            × (self.new.end ≡ self.old.end) × (self.new.at ≡ at) }
    {
        self.at = at;
        self.place = place;
    }
}
