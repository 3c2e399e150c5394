// `compute_power`.
use replaying::records;
use replaying::said::Said;

pub fn call(a: &[f32], b: &[f32]) -> Said {
    records::power(power::compute_power(a, b, 1.0))
}
