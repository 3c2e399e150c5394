// The remainder of two floats, as exact as `%`, worked out from the bit fields: no call of a C library.
//
// The bits of a magnitude below infinity are k * 2^23 + m where it is m * 2^k of the smallest values: m has at most 24 digits, and all of them unless k is 0.
ghost use Rattle.std.specs.Prelude.{◌≡◌, ◌+◌, ◌-◌, ◌*◌, ◌/◌, ◌%◌, ◌^◌, ◌<◌, ◌≤◌};
ghost use Rattle.std.specs.Float.{binary32};
ghost use Rattle.std.specs.Float.Ieee.{rem};
ghost use Rattle.generator.specs.Units.{places, digits, units};

// The bits of an infinity's magnitude.
const INFINITE: u64 = 0x7f80_0000;

const LEADING: u64 = 0x80_0000;

fn places(bits: u64) -> u64
    ensures { result ≡ places bits }
{
    let field = bits >> 23;
    if field == 0 { 0 } else { field - 1 }
}

// What n leaves of m * 2^k, 40 places a turn.
fn left_of(m: u64, k: u64, n: u64) -> u64
    requires digits { m < 2 ^ 24 }
    requires above { 0 < n }
    requires bound { n < 2 ^ 24 }
    ensures { result ≡ m * 2 ^ k % n }
{
    let mut r = m;
    let mut left = k;
    // not counted in turns, which would divide k by 40
    while 40 < left {
        r = (r << 40) % n;
        left -= 40;
    }
    (r << left) % n
}

// The bits of r * 2^k.
fn packed(r: u64, k: u64) -> u64
    requires digits { r < 2 ^ 24 }
    requires places { k ≤ 253 }
    ensures value { units result ≡ r * 2 ^ k }
    ensures finite { result < 2139095040 }
{
    if r == 0 {
        return 0;
    }
    let z = (u64::leading_zeros(r) as u64) - 40;
    let up = z.min(k);
    (k - up) * LEADING + (r << up)
}

// Of two magnitudes below infinity.
fn of_magnitudes(a: u64, b: u64) -> u64
    requires a_finite { a < 2139095040 }
    requires b_finite { b < 2139095040 }
    requires above { 0 < b }
    ensures value { units result ≡ units a % units b }
    ensures finite { result < 2139095040 }
{
    let p = places(a);
    let q = places(b);
    if p < q {
        return a;
    }
    packed(left_of(a - p * LEADING, p - q, b - q * LEADING), q)
}

// x % y
pub fn remainder(x: f32, y: f32) -> f32
    ensures { result ≡ rem binary32 x y }
{
    if x != x {
        return x;
    }
    if y != y {
        return y;
    }
    let bits = f32::to_bits(x) as u64;
    let a = bits & 0x7fff_ffff;
    let b = (f32::to_bits(y) as u64) & 0x7fff_ffff;
    // of an infinity, or by zero
    if INFINITE <= a {
        return 0.0 / 0.0;
    }
    if b == 0 {
        return 0.0 / 0.0;
    }
    if INFINITE <= b {
        return x;
    }
    f32::from_bits((((bits >> 31) << 31) | of_magnitudes(a, b)) as u32)
}
