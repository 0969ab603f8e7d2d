// The packed input of a program that runs samples: numbers of four bytes, the highest first, and bytes whose lengths they give.
ghost use Rattle.std.specs.Prelude.{◌≡◌, ◌<◌, length, take, drop, MatchResult};
ghost use Rattle.std.specs.Int.{w32, w64, from_be_bytes};

use crate::Stop;

// What is left of the input.
#[derive(Clone, Copy)]
pub struct Packed<'a>(pub &'a [u8]);

impl<'a> Packed<'a> {
    // The next n bytes; what is left is as it was where there are fewer.
    pub fn take(&mut self, n: usize) -> Result<&'a [u8], Stop>
        ensures { MatchResult result (λ front. (front.now ≡ take n self.old.0.now) × (self.new.0.now ≡ drop n self.old.0.now)) (λ e. (length self.old.0.now < n) × (self.new.0.now ≡ self.old.0.now)) }
    {
        let (front, rest) = self.0.split_at_checked(n).ok_or(Stop::BadPacking)?;
        self.0 = rest;
        Ok(front)
    }

    // The next N bytes.
    pub fn bytes<const N: usize>(&mut self) -> Result<[u8; N], Stop>
        ensures { MatchResult result (λ front. (front ≡ take N self.old.0.now) × (self.new.0.now ≡ drop N self.old.0.now)) (λ e. (length self.old.0.now < N) × (self.new.0.now ≡ self.old.0.now)) }
    {
        let (front, rest) = self.0.split_first_chunk().ok_or(Stop::BadPacking)?;
        self.0 = rest;
        Ok(*front)
    }

    pub fn number(&mut self) -> Result<u32, Stop>
        ensures { MatchResult result (λ n. (n ≡ from_be_bytes w32 (take 4 self.old.0.now)) × (self.new.0.now ≡ drop 4 self.old.0.now)) (λ e. (length self.old.0.now < 4) × (self.new.0.now ≡ self.old.0.now)) }
    {
        Ok(u32::from_be_bytes(self.bytes()?))
    }

    // The next N numbers.
    pub fn numbers<const N: usize>(&mut self) -> Result<[u32; N], Stop> {
        let mut numbers = [0; N];
        for n in &mut numbers {
            *n = self.number()?;
        }
        Ok(numbers)
    }

    // A number of 64 bits.
    pub fn wide(&mut self) -> Result<u64, Stop>
        ensures { MatchResult result (λ n. (n ≡ from_be_bytes w64 (take 8 self.old.0.now)) × (self.new.0.now ≡ drop 8 self.old.0.now)) (λ e. (length self.old.0.now < 8) × (self.new.0.now ≡ self.old.0.now)) }
    {
        Ok(u64::from_be_bytes(self.bytes()?))
    }

    // So many rows of N bytes.
    pub fn rows<const N: usize>(&mut self, count: u32) -> Result<&'a [[u8; N]], Stop>
        requires { 0 < N }
    {
        let size = N.checked_mul(count as usize).ok_or(Stop::BadPacking)?;
        let (rows, _) = self.take(size)?.as_chunks();
        Ok(rows)
    }
}

// A row's usage and number.
pub fn pair(row: &[u8; 8]) -> ([u8; 4], u32)
    ensures { (result.0 ≡ take 4 row.now) × (result.1 ≡ from_be_bytes w32 (drop 4 row.now)) }
{
    let [a, b, c, d, e, f, g, h] = *row;
    ([a, b, c, d], u32::from_be_bytes([e, f, g, h]))
}
