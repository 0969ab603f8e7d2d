// Overlapping moves of bytes within one lent buffer, by parts. The code of each stands once in the archive.
ghost use Rattle.std.specs.Prelude.{◌≡◌, ◌+◌, ◌-◌, ◌≤◌, length};
ghost use Rattle.moves.specs.Shift.{slid};

// So many bytes go at once. An array of them fits on the stack of the smallest device, where a compiler leaves it in.
const PART: usize = 2048;

// The `n` bytes at `from` go to `to`, overlapping or not. The compiler makes one call of the C library's memmove of the two copies, and the
// array goes. Not `copy_within`: it stays a loop, which moves 64 KB in 1.8 times the time.
fn move_part(buf: &mut [u8], to: usize, from: usize, n: usize)
    requires { (n ≤ 2048) × ((to + n ≤ length buf.old) × (from + n ≤ length buf.old)) }
    ensures { buf.new ≡ slid buf.old to from n }
{
    let mut part = [0u8; PART];
    part[..n].copy_from_slice(&buf[from..from + n]);
    buf[to..to + n].copy_from_slice(&part[..n]);
}

// The bytes from `at` up to `len` go `k` further right, the last part first. All others stay.
#[inline(never)]
pub fn shift_right(buf: &mut [u8], at: usize, len: usize, k: usize)
    requires { (at ≤ len) × (len + k ≤ length buf.old) }
    ensures { buf.new ≡ slid buf.old (at + k) at (len - at) }
{
    for part in (0..(len - at).div_ceil(PART)).rev() {
        let i = at + part * PART;
        move_part(buf, i + k, i, PART.min(len - i));
    }
}

// The bytes from `at` up to `len` go `k` further left, the first part first. All others stay.
#[inline(never)]
pub fn shift_left(buf: &mut [u8], at: usize, len: usize, k: usize)
    requires { (k ≤ at) × ((at ≤ len) × (len ≤ length buf.old)) }
    ensures { buf.new ≡ slid buf.old (at - k) at (len - at) }
{
    for part in 0..(len - at).div_ceil(PART) {
        let i = at + part * PART;
        move_part(buf, i - k, i, PART.min(len - i));
    }
}
