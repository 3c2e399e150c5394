// The number kit: an `f64` as an `f32`, the square root, the absolute value and the nearest whole number, worked out from the bit fields
// by shifts, masks, comparisons, additions and subtractions: no division, no remainder, no multiplication, and no call of a C library.
// A contract cites `specs/Number.antt`, over the logic's account of IEEE 754 (`lib.Ieee`).
#![tactic(auto)]

ghost use Rattle.std.specs.Prelude.{◌≡◌, Bool, false, cond, ℕ, ◌+◌, ◌-◌, ◌*◌, ◌/◌, ◌%◌, ◌^◌, ◌<◌, ◌≤◌, leb};
ghost use Rattle.std.specs.Float.{Format, binary32, binary64};
ghost use Rattle.std.specs.Float.Ieee.{prec, emax, of_fields, to_bits};
ghost use Rattle.std.specs.Float.Ieee.Nearest.{closest};
ghost use Rattle.number.specs.Number as Number;

pub mod parts;

// m / 2^d rounded to the nearest whole number, a tie to the even one.
fn nearest_shr(m: u64, d: u64) -> u64
    requires m_bound { m < 2 ^ 62 }
    requires d_nonzero { 1 ≤ d }
    requires d_bound { d ≤ 62 }
    ensures { result ≡ closest m (2 ^ d) }
{
    let half: u64 = 1 << (d - 1);
    (m + (half - 1) + ((m >> d) & 1)) >> d
}

// The fields below the sign of the `f32` nearest to the `f64` with this exponent's field and these digits.
fn narrow_fields(field: u64, digits: u64) -> u64
    requires field_bound { field < 2048 }
    requires digits_bound { digits < 2 ^ 52 }
    requires no_nan { (field ≡ 2047 → digits ≡ 0) }
    ensures value { ((s : Bool) → to_bits binary32 (Number.narrow (of_fields binary64 s field digits)) ≡ cond s (2 ^ 31) 0 + result) }
    ensures below_sign { result < 2 ^ 31 }
{
    // below half of the smallest `f32`
    if field < 872 {
        return 0;
    }
    let m: u64 = digits | 0x10_0000_0000_0000;
    // a subnormal `f32`, or the least that is not, where the rounding carries
    if field < 897 {
        return nearest_shr(m, 926 - field);
    }
    // the leading digit, and a carry, add to the exponent's field
    let r: u64 = ((field - 897) << 23) + nearest_shr(m, 29);
    r.min(0x7f80_0000)
}

// x as an `f32`: the nearest one, a tie to the one whose last digit is even.
pub fn narrow(x: f64) -> f32
    ensures { result ≡ Number.narrow x }
{
    if x != x {
        return 0.0 / 0.0;
    }
    let bits: u64 = f64::to_bits(x);
    let fields: u64 = narrow_fields((bits >> 52) & 0x7ff, bits & 0xf_ffff_ffff_ffff);
    f32::from_bits((((bits >> 63) << 31) | fields) as u32)
}

// a where the test holds, and b elsewhere: a choice of two numbers that are both there, so that no branch is needed, which would be guessed
// wrong half of the time.
fn select(test: bool, a: u64, b: u64) -> u64
    ensures { result ≡ cond test a b }
{
    if test { a } else { b }
}

// The first digits of a root, and twice what their square leaves, in units of the last digit.
#[derive(Drop)]
struct Digits {
    root: u64,
    rest: u64,
}

// The root of m * 2^(p + 1) has p + 1 digits: all but the last j, one a turn, from the highest down.
// r is twice the root so far, which is a multiple of 2 * w, and y is twice what its square leaves, in units of 2 * w.
// Both new values are chosen from what was there before the test, so that a turn waits for the test, a choice and a subtraction alone.
fn root_digits(m: u64, p: u64, j: u64) -> Digits
    requires m_bound { m < 2 ^ (p + 1) }
    requires p_bound { p ≤ 53 }
    requires j_bound { j ≤ p }
    ensures root_value { result.root ≡ Number.whole_root (m * 2 ^ (p + 1)) / 2 ^ j }
    ensures rest_value { result.root * 2 ^ j * (result.root * 2 ^ j) + result.root * 2 ^ j * (result.root * 2 ^ j) + result.rest * 2 ^ j ≡ m * 2 ^ (p + 1) + m * 2 ^ (p + 1) }
    ensures rest_bound { result.rest < 4 * (result.root * 2 ^ j) + 2 * 2 ^ j }
{
    let last: u64 = 1 << j;
    let mut r: u64 = 0;
    let mut y: u64 = m + m;
    let mut w: u64 = 1 << p;
    while last <= w {
        let t: u64 = r + w;
        let short: bool = y < t;
        y = y + y - select(short, 0, t + t);
        r = select(short, r, t + w);
        w >>= 1;
    }
    Digits {
        root: r >> (j + 1),
        rest: y,
    }
}

// The bit pattern of the root of m * 2^(p + 1 + g), for an m of p digits: the root's p + 1 digits rounded to p, beside half of g.
fn root_of(m: u64, g: u64, p: u64) -> u64
    requires m_bound { m < 2 ^ p }
    requires p_nonzero { 1 ≤ p }
    requires p_bound { p ≤ 53 }
    requires g_bound { g < 4096 }
    ensures { result ≡ g / 2 * 2 ^ (p - 1) + (Number.whole_root (m * 2 ^ (g % 2) * 2 ^ (p + 1)) + 1) / 2 }
{
    ((g >> 1) << (p - 1)) + ((root_digits(m << (g & 1), p, 0).root + 1) >> 1)
}

// The bit pattern of the root of the value above zero with this exponent's field and these digits, in the format of p digits and
// the largest exponent e + 2.
fn root_fields(field: u64, digits: u64, p: u64, e: u64) -> u64
    requires not_zero { 0 < field + digits }
    requires digits_bound { digits < 2 ^ (p - 1) }
    requires field_bound { field ≤ 2 * (e + 2) }
    requires format { (2 ≤ p) × (p ≤ 53) × (p ≤ e + 2) × (e ≤ 1021) }
    ensures { (f : Format) → prec f ≡ p → emax f ≡ e + 2 → to_bits f (Number.root f (of_fields f false field digits)) ≡ result }
{
    if field == 0 {
        // below the smallest normal value: the leading digit is brought to its place
        let z: u64 = (u64::leading_zeros(digits) as u64) - (64 - p);
        return root_of(digits << z, e + 1 - z, p);
    }
    root_of(digits | (1 << (p - 1)), field + e, p)
}

// The square root of x: the nearest `f64`, a tie (there is none) to the one whose last digit is even.
pub fn sqrt64(x: f64) -> f64
    ensures { result ≡ Number.root binary64 x }
{
    if x != x {
        return 0.0 / 0.0;
    }
    let bits: u64 = f64::to_bits(x);
    let field: u64 = (bits >> 52) & 0x7ff;
    let digits: u64 = bits & 0xf_ffff_ffff_ffff;
    if field + digits == 0 {
        return x;
    }
    if 0x8000_0000_0000_0000 <= bits {
        return 0.0 / 0.0;
    }
    if field == 2047 {
        return x;
    }
    f64::from_bits(root_fields(field, digits, 53, 1021))
}

// The bit pattern of the `f32` nearest to the `f64` nearest to the root of m * 2^(54 + g), for an m of 53 digits, where that is a normal `f32`.
// The root has 54 digits, of which the first 25 are worked out: those that an `f32` keeps, and the half below them. Where the square of these 25 is within
// one unit of m, an `f64` doesn't tell the root from the middle of two `f32`, so it is a tie; with m and one unit more, that is a rest of at most two units.
fn narrowed_of(m: u64, g: u64) -> u64
    requires m_low { 2 ^ 52 ≤ m }
    requires m_bound { m < 2 ^ 53 }
    requires g_low { 1792 ≤ g }
    requires g_bound { g < 2300 }
    ensures { result ≡ (g / 2 - 896) * 2 ^ 23 + closest ((Number.whole_root (m * 2 ^ (g % 2) * 2 ^ 54) + 1) / 2) (2 ^ 29) }
{
    let field: u64 = ((g >> 1) - 896) << 23;
    let first = root_digits((m << (g & 1)) + 1, 53, 29);
    if first.rest <= 0x800_0000 {
        return field + nearest_shr(first.root, 1);
    }
    field + ((first.root + 1) >> 1)
}

// The square root of x as an `f64`, narrowed: `narrow(sqrt64(x))`, in less than half of its time.
pub fn sqrt64_narrowed(x: f64) -> f32
    ensures { result ≡ Number.narrowed_root x }
{
    if x != x {
        return 0.0 / 0.0;
    }
    let bits: u64 = f64::to_bits(x);
    let field: u64 = bits >> 52;
    // above zero, and with a root that is a normal `f32`
    if 771 <= field && field <= 1278 {
        return f32::from_bits(narrowed_of(
            (bits & 0xf_ffff_ffff_ffff) | 0x10_0000_0000_0000,
            field + 1021,
        ) as u32);
    }
    narrow(sqrt64(x))
}

// The square root of x: the nearest `f32`.
pub fn sqrt32(x: f32) -> f32
    ensures { result ≡ Number.root binary32 x }
{
    if x != x {
        return 0.0 / 0.0;
    }
    let bits: u64 = f32::to_bits(x) as u64;
    let field: u64 = (bits >> 23) & 0xff;
    let digits: u64 = bits & 0x7f_ffff;
    if field + digits == 0 {
        return x;
    }
    if 0x8000_0000 <= bits {
        return 0.0 / 0.0;
    }
    if field == 255 {
        return x;
    }
    f32::from_bits(root_fields(field, digits, 24, 125) as u32)
}

// The absolute value of x.
pub fn abs32(x: f32) -> f32
    ensures { result ≡ Number.abs x }
{
    if x != x {
        return x;
    }
    f32::from_bits(f32::to_bits(x) & 0x7fff_ffff)
}

// The fields below the sign of the whole number nearest to the `f32` of this magnitude, a half away from zero.
fn away_fields(field: u64, digits: u64) -> u64
    requires field_bound { field < 150 }
    requires digits_bound { digits < 2 ^ 23 }
    ensures value { ((s : Bool) → to_bits binary32 (Number.round_away binary32 (of_fields binary32 s field digits)) ≡ cond s (2 ^ 31) 0 + result) }
    ensures below_sign { result < 2 ^ 31 }
{
    // below a half
    if field < 126 {
        return 0;
    }
    let d: u64 = 150 - field;
    let m: u64 = digits | 0x80_0000;
    // the leading digit, and a carry, add to the exponent's field
    ((field - 1) << 23) + (((m + (1 << (d - 1))) >> d) << d)
}

// The whole number nearest to x, a half away from zero.
pub fn round32(x: f32) -> f32
    ensures { result ≡ Number.round_away binary32 x }
{
    if x != x {
        return x;
    }
    let bits: u64 = f32::to_bits(x) as u64;
    let field: u64 = (bits >> 23) & 0xff;
    // a whole number already, or an infinity
    if 150 <= field {
        return x;
    }
    let fields: u64 = away_fields(field, bits & 0x7f_ffff);
    f32::from_bits((((bits >> 31) << 31) | fields) as u32)
}
