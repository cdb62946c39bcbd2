//! Numbers (ECMA-262, section 6.1.6.1): a safe integer, or none for NaN.

ghost use Rattle.std.specs.Prelude.{◌≡◌, ◌≤◌, ◌<◌, ◌^◌, bit_and, bit_xor, bit_or};
ghost use Rattle.js_values.specs.Numbers as number;
ghost use Rattle.js_ops.specs.Contents.{Exact, IsSmall};

const MOST_SAFE: i128 = 9_007_199_254_740_991;

/// 2^32
const ALL_BITS: u64 = 4_294_967_296;

/// 2^31
const SIGN_BIT: u32 = 2_147_483_648;

/// The whole number, where it is safe (section 21.1.2.5).
pub fn safe(n: i128) -> Option<i64>
    ensures { Exact n result }
{
    if -MOST_SAFE <= n && n <= MOST_SAFE {
        Some(n as i64)
    } else {
        None
    }
}

/// The number modulo 2^32 (section 7.1.7, ToUint32); NaN is 0.
pub fn to_uint32(n: Option<i64>) -> u32
    ensures { result ≡ number.to_uint32 n }
{
    match n {
        None => 0,
        Some(n) => {
            if n >= 0 {
                (n as u64 % ALL_BITS) as u32
            } else {
                (ALL_BITS - 1 - (-(n + 1)) as u64 % ALL_BITS) as u32
            }
        }
    }
}

fn signed(unsigned: u32) -> i64
    ensures value { result ≡ number.signed unsigned }
    ensures small { IsSmall result }
{
    if unsigned < SIGN_BIT {
        i64::from(unsigned)
    } else {
        i64::from(unsigned) - ALL_BITS as i64
    }
}

/// Section 7.1.6, ToInt32.
pub fn to_int32(n: Option<i64>) -> i64
    ensures value { result ≡ number.to_int32 n }
    ensures small { IsSmall result }
{
    signed(to_uint32(n))
}

/// Section 6.1.6.1.17, BitwiseAND.
pub fn bit_and(m: Option<i64>, n: Option<i64>) -> i64
    ensures value { result ≡ number.bitwise bit_and m n }
    ensures small { IsSmall result }
{
    signed(to_uint32(m) & to_uint32(n))
}

/// Section 6.1.6.1.18, BitwiseXOR.
pub fn bit_xor(m: Option<i64>, n: Option<i64>) -> i64
    ensures value { result ≡ number.bitwise bit_xor m n }
    ensures small { IsSmall result }
{
    signed(to_uint32(m) ^ to_uint32(n))
}

/// Section 6.1.6.1.19, BitwiseOR.
pub fn bit_or(m: Option<i64>, n: Option<i64>) -> i64
    ensures value { result ≡ number.bitwise bit_or m n }
    ensures small { IsSmall result }
{
    signed(to_uint32(m) | to_uint32(n))
}

/// Section 6.1.6.1.2, Number::bitwiseNOT.
pub fn complement(n: Option<i64>) -> i64
    ensures value { result ≡ number.complement (number.to_int32 n) }
    ensures small { IsSmall result }
{
    -1 - to_int32(n)
}

fn shift_count(n: Option<i64>) -> u32
    ensures value { result ≡ number.shift_count n }
    ensures small { result < 32 }
{
    to_uint32(n) % 32
}

/// 2 to a power.
fn power(count: u32) -> u64
    requires { count < 32 }
    ensures value { result ≡ 2 ^ count }
    ensures small { result ≤ 2147483648 }
    ensures some { 1 ≤ result }
{
    2u64.pow(count)
}

/// Section 6.1.6.1.9, Number::leftShift.
pub fn shift_left(m: Option<i64>, n: Option<i64>) -> i64
    ensures value { result ≡ number.shift_left m n }
    ensures small { IsSmall result }
{
    let moved = u64::from(to_uint32(m)) * power(shift_count(n));
    signed((moved % ALL_BITS) as u32)
}

/// The whole number below or at the quotient by a power of 2.
fn halved(whole: i64, count: u32) -> i64
    requires count { count < 32 }
    requires whole { IsSmall whole }
    ensures value { result ≡ number.halved whole count }
    ensures small { IsSmall result }
{
    let parts = power(count);
    if whole >= 0 {
        (whole as u64 / parts) as i64
    } else {
        -1 - ((-1 - whole) as u64 / parts) as i64
    }
}

/// Section 6.1.6.1.10, Number::signedRightShift.
pub fn shift_right(m: Option<i64>, n: Option<i64>) -> i64
    ensures value { result ≡ number.shift_right m n }
    ensures small { IsSmall result }
{
    halved(to_int32(m), shift_count(n))
}

/// Section 6.1.6.1.11, Number::unsignedRightShift.
pub fn shift_right_zero(m: Option<i64>, n: Option<i64>) -> i64
    ensures value { result ≡ number.shift_right_zero m n }
    ensures small { IsSmall result }
{
    (u64::from(to_uint32(m)) / power(shift_count(n))) as i64
}
