// A line's words, and the numbers made of them. A word is eight upper-case hexadecimal digits and one byte that is not looked at. A word past the end is 0,
// so that every read is defined; a line that is cut then shows as a difference.
ghost use Rattle.std.specs.Prelude.{◌<◌};

use std::num;

// The value of a digit; what is no digit is 0.
fn nibble(b: u8) -> u32
    ensures { result < 16 }
{
    u32::from(hexadecimal::digit(b) % 16)
}

// The word i.
pub fn word(line: &[u8], i: usize) -> u32 {
    if line.len() / 9 <= i {
        return 0;
    }
    let at = i * 9;
    line[at..at + 8]
        .iter()
        .fold(0, |word, b| (word << 4) | nibble(*b))
}

// The place k words behind i.
pub fn behind(i: usize, k: usize) -> usize {
    i.wrapping_add(k)
}

// The words i and i + 1 as one number, the higher one first.
pub fn long(line: &[u8], i: usize) -> u64 {
    u64::from(word(line, i)) * 0x1_0000_0000 + u64::from(word(line, behind(i, 1)))
}

// The word i as a length or a place.
pub fn size(line: &[u8], i: usize) -> usize
    ensures { result < 4294967296 }
{
    word(line, i) as usize
}

// The last byte of word i.
pub fn byte(line: &[u8], i: usize) -> u8 {
    (word(line, i) % 256) as u8
}

// The f32 at word i; a NaN for any NaN's bits.
pub fn float(line: &[u8], i: usize) -> f32 {
    num::f32_from_bits_with_nan(word(line, i))
}

// The f64 at the words i and i + 1; a NaN for any NaN's bits.
pub fn double(line: &[u8], i: usize) -> f64 {
    num::f64_from_bits_with_nan(long(line, i))
}
