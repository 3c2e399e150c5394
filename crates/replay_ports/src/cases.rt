// Cases over time figures and ports.
use crate::{of_figures, of_port};
use replaying::lists::{List, MOST, ROOM};
use replaying::said::Said;
use replaying::{lists, read, said};

// The call that a line names, on this slice.
fn call(line: &[u8], a: &[f32]) -> Said {
    match read::word(line, 1) {
        5 => of_figures::call(line, a),
        9 => of_port::call(line, read::word(line, 2)),
        _ => said::nothing(),
    }
}

// The call on the first places of this, with the line's slice there.
fn on(line: &[u8], slice: List, a: &mut [f32]) -> Said {
    slice.fill(line, a);
    call(line, lists::first(a, slice.places))
}

// One place more than a slice may have, where that is what a case is about.
fn answered(line: &[u8]) -> Said {
    let at = lists::placed(line);
    if at.is_long() {
        return on(line, at.a, &mut [0.0; MOST]);
    }
    on(line, at.a, &mut [0.0; ROOM])
}

// Whether the library answers this line as the oracle did.
pub fn agrees(line: &[u8]) -> bool {
    said::agrees(line, answered(line))
}
