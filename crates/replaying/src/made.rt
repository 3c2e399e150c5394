// Lists that are too long for a line and have more than one number: they are made by a rule from the word that stands there, and compared by a sum of the
// words of all their places.
use std::num;

// ---- the rule: numbers below 65,537, each 75 times the one before, and 74, and of each a float

fn next(s: u32) -> u32 {
    ((u64::from(s) * 75 + 74) % 65537) as u32
}

// From a half to two, and negative where s is odd.
fn float_at(s: u32) -> f32 {
    let s = s % 65537;
    num::f32_from_bits_with_nan(0x3f00_0000 + s * 0x100 + s % 2 * 0x8000_0000)
}

// Stores the list that the word `first` makes; what is behind it doesn't matter.
pub fn fill(first: u32, out: &mut [f32]) {
    let mut s = first;
    for x in out {
        *x = float_at(s);
        s = next(s);
    }
}

// ---- the sum

// The bits of a float: the same for every NaN, and for either zero.
fn word_of(x: f32) -> u32 {
    if x == 0.0 {
        0
    } else {
        num::f32_to_bits_with_nan(x)
    }
}

// The same for an f64, whose bits are two words.
fn long_of(x: f64) -> u64 {
    if x == 0.0 {
        0
    } else {
        num::f64_to_bits_with_nan(x)
    }
}

// One word more.
fn with_word(sum: u32, word: u32) -> u32 {
    ((u64::from(sum) * 65599 + u64::from(word)) % 4294967291) as u32
}

// The two words of an f64 more.
fn with_long(sum: u32, long: u64) -> u32 {
    with_word(
        with_word(sum, (long / 0x1_0000_0000) as u32),
        (long % 0x1_0000_0000) as u32,
    )
}

// The sum of all these.
pub fn sum(xs: &[f32]) -> u32 {
    xs.iter().fold(0, |sum, x| with_word(sum, word_of(*x)))
}

pub fn sum_of_doubles(xs: &[f64]) -> u32 {
    xs.iter().fold(0, |sum, x| with_long(sum, long_of(*x)))
}
