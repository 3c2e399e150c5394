// Records as they stand in a line or in what was answered.
use crate::said::Said;
use crate::{read, said};
use answers::Refusal;
use crossing::powers::CodedPower;
use figures::TimeFigures;
use power::Power;

// A port's reading at the words i, whether there is a number, and i + 1.
pub fn reading_at(line: &[u8], i: usize) -> Option<f32> {
    (read::word(line, i) != 0).then(|| read::float(line, read::behind(i, 1)))
}

// p, nonactive, s and pf.
pub fn power(r: Result<Power, Refusal>) -> Said {
    let CodedPower { code, power } = CodedPower::from(r);
    said::with_floats(code, &[power.p, power.nonactive, power.s, power.pf])
}

// The number and these, where the record's counts are the words i and i + 1; no f32 holds every count.
pub fn counted(line: &[u8], i: usize, code: u8, r: TimeFigures, xs: &[f32]) -> Said {
    let not_numbers = read::word(line, i);
    let infinite = read::word(line, read::behind(i, 1));
    if not_numbers != r.not_numbers || infinite != r.infinite {
        return said::nothing();
    }
    said::with_floats(code, xs)
}

// The 19 time figures.
pub fn figures(r: TimeFigures) -> [f32; 19] {
    [
        r.peak_to_peak,
        r.max,
        r.min,
        r.positive_peak,
        r.negative_peak,
        r.average,
        r.dc_rms,
        r.ac_rms,
        r.duty_cycle_pos,
        r.duty_cycle_neg,
        r.rise_time,
        r.fall_time,
        r.crest_factor,
        r.frequency,
        r.period,
        r.form_factor,
        r.overshoot,
        r.undershoot,
        r.slew_rate,
    ]
}
