// Cases over signals, by value and held.
use crate::{of_held, of_signal};
use replaying::lists::{MOST, Places, ROOM};
use replaying::said::Said;
use replaying::{lists, read, said};

// The call that a line names, on this slice.
fn call(line: &[u8], out: &mut [f32]) -> Said {
    let which = read::word(line, 2);
    match read::word(line, 1) {
        10 => of_signal::call(line, which, out),
        12 => of_held::call(line, which, out),
        _ => said::nothing(),
    }
}

// Whether the library answers as the oracle did, with the line's slice in this.
fn on(line: &[u8], at: Places, out: &mut [f32]) -> bool {
    at.out.fill(line, out);
    let said = call(line, lists::first_mut(out, at.out.places));
    said::same(line, at, said, out)
}

// One place more than a slice may have, where that is what a case is about.
pub fn agrees(line: &[u8]) -> bool {
    let at = lists::placed(line);
    if at.is_long() {
        return on(line, at, &mut [0.0; MOST]);
    }
    on(line, at, &mut [0.0; ROOM])
}
