// Texts and codes among a line's numbers: of a text four bytes a word, of codes a voltage and a current code.
use crate::read;
use crate::read::behind;

// The most bytes of a text, and the most pairs.
pub const TEXT: usize = 640;

pub const PAIRS: usize = 20;

// The byte k of the text from word i on.
fn byte_at(line: &[u8], i: usize, k: usize) -> u8 {
    read::word(line, behind(i, k / 4)).to_be_bytes()[k % 4]
}

// Stores the text from word i on.
pub fn text(line: &[u8], i: usize, out: &mut [u8]) {
    for (k, b) in out.iter_mut().enumerate() {
        *b = byte_at(line, i, k);
    }
}

// Whether the text from word i on stands in the first n places.
pub fn same_text(line: &[u8], i: usize, n: usize, text: &[u8]) -> bool {
    let Some(text) = text.get(..n) else {
        return false;
    };
    let mut bytes = text.iter().enumerate();
    bytes.all(|(k, b)| *b == byte_at(line, i, k))
}

// The voltage code and the current code of word i.
pub fn pair_at(line: &[u8], i: usize) -> (i16, i16) {
    let word = read::word(line, i);
    (
        hexadecimal::code((word / 0x1_0000) as u16),
        hexadecimal::code((word % 0x1_0000) as u16),
    )
}

// Stores the codes from word i on.
pub fn pairs(line: &[u8], i: usize, volts: &mut [i16], amps: &mut [i16]) {
    for (k, (volt, amp)) in volts.iter_mut().zip(amps).enumerate() {
        (*volt, *amp) = pair_at(line, behind(i, k));
    }
}

// Whether the codes from word i on are these.
pub fn same_pairs(line: &[u8], i: usize, volts: &[i16], amps: &[i16]) -> bool {
    let mut pairs = volts.iter().zip(amps).enumerate();
    pairs.all(|(k, (volt, amp))| (*volt, *amp) == pair_at(line, behind(i, k)))
}
