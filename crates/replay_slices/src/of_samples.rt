// Offset, factor and sum.
use replaying::said::Said;
use replaying::{read, said};

pub fn call(line: &[u8], which: u32, a: &[f32], b: &[f32], out: &mut [f32]) -> Said {
    match which {
        1 => said::ended(samples::add_dc_offset(out, read::float(line, 4))),
        2 => said::ended(samples::scale(out, read::float(line, 4))),
        3 => said::ended(samples::add_signals(a, b, out)),
        _ => said::nothing(),
    }
}
