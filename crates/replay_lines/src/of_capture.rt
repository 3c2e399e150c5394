// Capture lines, read and written.
use crossing::captures::{CodedRead, CodedWritten};
use replaying::lists::{first, first_mut};
use replaying::packed::{PAIRS, TEXT};
use replaying::said::Said;
use replaying::{packed, read, said};

// The number of the outcome, a line or a count of bytes, and a count of pairs, as one number; only where what was written is right.
pub fn code(number: u8, line: usize, pairs: usize, right: bool) -> Said {
    if !right {
        return said::nothing();
    }
    let counts = (line % 4096 * 0x10 + pairs % 4096 * 0x1_0000) as u32;
    said::code(u32::from(number) % 16 + counts)
}

// The length of the text, the rooms, the codes afterwards, the text. Before, 7 and 8 stand in the rooms.
pub fn read_case(line: &[u8]) -> Said {
    let mut text = [0; TEXT];
    packed::text(line, 27, &mut text);
    let mut volts = [7; PAIRS];
    let mut amps = [8; PAIRS];
    let r = CodedRead::from(capture::read_capture(
        first(&text, read::size(line, 4)),
        first_mut(&mut volts, read::size(line, 5)),
        first_mut(&mut amps, read::size(line, 6)),
    ));
    let right = packed::same_pairs(line, 7, &volts, &amps);
    code(r.code, r.line, r.pairs, right)
}

// The first number, the room, the counts of codes, the codes, the room afterwards. Before, a full stop stands in each place.
pub fn write_case(line: &[u8]) -> Said {
    let mut volts = [0; PAIRS];
    let mut amps = [0; PAIRS];
    packed::pairs(line, 8, &mut volts, &mut amps);
    let mut text = [b'.'; TEXT];
    let room = read::size(line, 5);
    let r = CodedWritten::from(writing::write_capture(
        first(&volts, read::size(line, 6)),
        first(&amps, read::size(line, 7)),
        (read::word(line, 4) % 0x1_0000) as u16,
        first_mut(&mut text, room),
    ));
    let right = packed::same_text(line, 28, room, &text);
    code(r.code, r.bytes, 0, right)
}
