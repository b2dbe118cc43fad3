//! The codes by which a query gives its times (RFC 3376, sections 4.1.1 and 4.1.7): a number below 128 as itself, a
//! greater one as a mantissa of 4 bits and an exponent of 3.
ghost use Rattle.std.specs.Prelude.{◌≡◌, ℕ, ◌<◌, ◌≤◌};
ghost use Rattle.igmp_wire.specs.Codes.{code_value, value_code};

/// The greatest value that a code has.
const GREATEST_VALUE: u32 = 31744;

/// The value of a code, in the unit of its field.
pub fn code_value(code: u8) -> u32
    ensures value { result ≡ code_value code }
    ensures rises { (lower : ℕ) → lower < code → code_value lower < result }
    ensures within { result ≤ 31744 }
{
    if code < 128 {
        return u32::from(code);
    }
    let mantissa = u32::from(code % 16);
    let exponent = u32::from(code / 16 % 8);
    (mantissa + 16) << (exponent + 3)
}

/// The greatest code whose value is at most the given one.
pub fn value_code(value: u32) -> u8
    ensures code { result ≡ value_code value }
    ensures within { code_value result ≤ value }
    ensures greatest { (code : ℕ) → code < 256 → code_value code ≤ value → code ≤ result }
{
    if value < 128 {
        return value as u8;
    }
    if value >= GREATEST_VALUE {
        return u8::MAX;
    }
    // From 2^7 on, each power of 2 begins an exponent.
    let exponent = 24 - value.leading_zeros();
    let mantissa = (value >> (exponent + 3)) - 16;
    (128 + 16 * exponent + mantissa) as u8
}
