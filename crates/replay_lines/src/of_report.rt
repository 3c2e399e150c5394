// The report: the length of the input, the room, the room afterwards in 24 words, the input. Before, a full stop stands in each place of the room.
use crate::of_capture;
use crossing::captures::CodedWritten;
use replaying::lists::{first, first_mut};
use replaying::packed::TEXT;
use replaying::said::Said;
use replaying::{packed, read};

pub fn call(line: &[u8]) -> Said {
    let mut input = [0; TEXT];
    packed::text(line, 30, &mut input);
    let mut text = [b'.'; 96];
    let room = read::size(line, 5);
    let r = CodedWritten::from(reporting::report_text(
        first(&input, read::size(line, 4)),
        first_mut(&mut text, room),
    ));
    let right = packed::same_text(line, 6, room, &text);
    of_capture::code(r.code, r.bytes, 0, right)
}
