// The rows of the FORMs, as far as a slice has room for them.
ghost use Rattle.std.specs.Prelude.{◌≡◌, ◌+◌, ◌<◌, ◌^◌};
ghost use Rattle.groups.specs.Store.{store};

// A slice of rows, four numbers each, the first of which is that of FORM `base` of the file; and how many FORMs came so far.
#[derive(Drop)]
pub struct Rows<'a> {
    pub slice: &'a mut [u32],
    pub base: usize,
    pub count: usize,
}

impl Rows<'_> {
    // The row of the next FORM, if the slice has it.
    pub fn put(&mut self, kind: u32, start: u32, size: u32, depth: u32)
        requires { self.old.count + 1 < 2 ^ 64 }
        ensures same_slice { self.new.slice.ghost_name ≡ self.old.slice.ghost_name }
        ensures stored { self.new.slice.now ≡ store self.old.base self.old.count self.old.slice.now kind start size depth }
        ensures counted { (self.new.base ≡ self.old.base) × (self.new.count ≡ self.old.count + 1) }
    {
        let row = self.count;
        self.count += 1;
        if row < self.base {
            return;
        }
        let i = row - self.base;
        if self.slice.len() / 4 <= i {
            return;
        }
        self.slice[4 * i..4 * i + 4].copy_from_slice(&[kind, start, size, depth]);
    }
}
