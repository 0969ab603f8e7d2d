// The rate of an AIFF, an 80-bit number, where it is a whole number of 32 bits.
ghost use Rattle.std.specs.Prelude.{◌≡◌, ◌+◌, ◌≤◌, length, drop, SomeIff};
ghost use Rattle.aiff.specs.Rate.{rd16, numerator, whole_of, rate_of, rate_in};

// The exponent field, bias and 63 bits together, of which the value is the significand itself.
const UNIT: u32 = 16446;

// The number of 16 bits at `at`.
pub(crate) fn be16_at(s: &[u8], at: usize) -> u16
    requires { at + 2 ≤ length s.now }
    ensures { result ≡ rd16 (drop at s.now) }
{
    u16::from_be_bytes([s[at], s[at + 1]])
}

fn in_range(value: u64) -> Option<u32>
    ensures { SomeIff result (value ≤ 4294967295) value }
{
    u32::try_from(value).ok()
}

// The significand times 2 to the power (exponent less UNIT). A significand that is not 0 is no multiple of 2^64, and times that it is too large.
fn whole(significand: u64, exponent: u32) -> Option<u32>
    ensures { result ≡ whole_of (numerator significand exponent) }
{
    if significand == 0 {
        return None;
    }
    if exponent < UNIT {
        let parts = 1u64.checked_shl(UNIT - exponent)?;
        if significand % parts != 0 {
            return None;
        }
        return in_range(significand / parts);
    }
    let times = 1u64.checked_shl(exponent - UNIT)?;
    in_range(significand.checked_mul(times)?)
}

fn value(sign: u16, exponent: u16, significand: u64) -> Option<u32>
    ensures { result ≡ rate_of sign exponent significand }
{
    if sign != 0 {
        return None;
    }
    whole(significand, u32::from(exponent))
}

// The rate in the ten bytes at `at`.
pub(crate) fn rate_at(s: &[u8], at: usize) -> Option<u32>
    requires { at + 10 ≤ length s.now }
    ensures { result ≡ rate_in (drop at s.now) }
{
    let top = be16_at(s, at);
    let significand = blorb::be32_at(s, at + 2) * 4294967296 + blorb::be32_at(s, at + 6);
    value(top / 32768, top % 32768, significand)
}
