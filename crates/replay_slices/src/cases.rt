// Cases over numbers and slices.
use crate::{
    of_fundamental, of_generator, of_number, of_power, of_quality, of_samples, of_spectrum,
    of_timing,
};
use replaying::lists::{MOST, Places, ROOM};
use replaying::said::Said;
use replaying::{lists, read, said};

// The call that a line names, on these slices.
fn call(line: &[u8], a: &[f32], b: &[f32], out: &mut [f32]) -> Said {
    let which = read::word(line, 2);
    match read::word(line, 1) {
        1 => of_number::call(line, which),
        2 => of_samples::call(line, which, a, b, out),
        3 => of_timing::call(line, which, a),
        4 => of_power::call(a, b),
        6 => of_spectrum::call(line, which, a, out),
        7 => of_quality::call(line, which, a),
        8 => of_generator::call(line, out),
        13 => of_fundamental::call(line, a, b),
        _ => said::nothing(),
    }
}

// Whether the library answers as the oracle did, with the line's slices in these.
fn on(line: &[u8], at: Places, a: &mut [f32], b: &mut [f32], out: &mut [f32]) -> bool {
    at.a.fill(line, a);
    at.b.fill(line, b);
    at.out.fill(line, out);
    let said = call(
        line,
        lists::first(a, at.a.places),
        lists::first(b, at.b.places),
        lists::first_mut(out, at.out.places),
    );
    said::same(line, at, said, out)
}

// One place more than a slice may have, where that is what a case is about.
pub fn agrees(line: &[u8]) -> bool {
    let at = lists::placed(line);
    if at.is_long() {
        return on(
            line,
            at,
            &mut [0.0; MOST],
            &mut [0.0; MOST],
            &mut [0.0; MOST],
        );
    }
    on(
        line,
        at,
        &mut [0.0; ROOM],
        &mut [0.0; ROOM],
        &mut [0.0; ROOM],
    )
}
