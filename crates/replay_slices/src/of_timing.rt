// Frequency and slew rate.
use replaying::said::Said;
use replaying::{read, said};

pub fn call(line: &[u8], which: u32, a: &[f32]) -> Said {
    match which {
        1 => said::measured(timing::measure_frequency(a, read::float(line, 4))),
        2 => said::measured(timing::slew_rate(a, read::float(line, 4))),
        _ => said::nothing(),
    }
}
