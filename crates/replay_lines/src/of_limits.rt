// The limit of 65,536: codes and captures that are too long for a line, and are made here. Voltage codes are 7 and current codes 8, first numbers 0.
use crate::of_codes;
use answers::LONGEST;
use crossing::captures::{CodedRead, CodedWritten};
use replaying::lists::{MOST, first, first_mut};
use replaying::read::behind;
use replaying::said::Said;
use replaying::{packed, read, said};

// The bytes of a capture of LONGEST pairs, and of one that has one pair more, in a line of its own.
const FULL: usize = 561152;

const TOO_LONG: usize = FULL + 17;

// ---- places afterwards

// Whether the byte at the place that word i says is that of word i + 1.
fn same_byte(line: &[u8], i: usize, text: &[u8]) -> bool {
    text.get(read::size(line, i)).copied() == Some(read::byte(line, behind(i, 1)))
}

// The same of a voltage and a current code.
fn same_pair(line: &[u8], i: usize, volts: &[i16], amps: &[i16]) -> bool {
    let k = read::size(line, i);
    let (volt, amp) = packed::pair_at(line, behind(i, 1));
    volts.get(k).copied() == Some(volt) && amps.get(k).copied() == Some(amp)
}

// ---- reading

fn put_text(text: &mut [u8]) {
    let full = FULL.min(text.len());
    let (full, one_more) = text.split_at_mut(full);
    let _ = writing::write_capture(&[7; LONGEST], &[8; LONGEST], 0, full);
    let _ = writing::write_capture(&[7; 1], &[8; 1], 4096, one_more);
}

fn read_into(line: &[u8], text: &[u8], volts: &mut [i16], amps: &mut [i16]) -> Said {
    let r = CodedRead::from(capture::read_capture(
        first(text, read::size(line, 4)),
        first_mut(volts, read::size(line, 5)),
        first_mut(amps, read::size(line, 6)),
    ));
    let right = r.line == read::size(line, 7)
        && r.pairs == read::size(line, 8)
        && [9, 11, 13].iter().all(|i| same_pair(line, *i, volts, amps));
    said::where_right(right, said::code(u32::from(r.code)))
}

// The length of the text, the rooms, the line and the pairs answered, three places and what stands there afterwards. Before, 5 and 6 stand in the rooms.
fn read_long(line: &[u8], text: &mut [u8]) -> Said {
    put_text(text);
    read_into(line, text, &mut [5; MOST], &mut [6; MOST])
}

// ---- writing

// The counts of codes, the room, the bytes answered, three places and what stands there afterwards.
fn write_long(line: &[u8], text: &mut [u8]) -> Said {
    let r = CodedWritten::from(writing::write_capture(
        first(&[7; MOST], read::size(line, 4)),
        first(&[8; MOST], read::size(line, 5)),
        0,
        first_mut(text, read::size(line, 6)),
    ));
    let right = r.bytes == read::size(line, 7)
        && [8, 10, 12].iter().all(|i| same_byte(line, *i, text));
    said::where_right(right, said::code(u32::from(r.code)))
}

// ---- the cases

// Before, a full stop stands in each place of the text.
fn on_text<C: Fn(&[u8], &mut [u8]) -> Said>(line: &[u8], case: C) -> Said
    requires { C.IsAlwaysCallable case }
{
    case(line, &mut [b'.'; TOO_LONG])
}

pub fn read_case(line: &[u8]) -> Said {
    on_text(line, read_long)
}

pub fn write_case(line: &[u8]) -> Said {
    on_text(line, write_long)
}

// ---- the power of codes

pub fn codes_case(line: &[u8]) -> Said {
    of_codes::power(line, &[7; MOST], &[8; MOST])
}
