// Distortion, effective bits and the quotients. Of a quotient the first float is 0 for a ratio, 1 for no spur, 2 for an unusable bin.
use answers::Refusal;
use crossing::quotients::CodedQuotient;
use quality::Sfdr;
use replaying::said::Said;
use replaying::{read, said};

// The ratio is the f64.
fn quotient(r: Result<Option<f64>, Refusal>) -> Said {
    let CodedQuotient { code, kind, ratio } = CodedQuotient::from(r);
    Said {
        wide: ratio,
        ..said::with_floats(code, &[f32::from(kind)])
    }
}

// The ratio, an f32 as an f64, is the second float.
fn sfdr(r: Result<Sfdr, Refusal>) -> Said {
    let CodedQuotient { code, kind, ratio } = CodedQuotient::from(r);
    said::with_floats(code, &[f32::from(kind), number::narrow(ratio)])
}

pub fn call(line: &[u8], which: u32, a: &[f32]) -> Said {
    let bin = read::long(line, 4) as usize;
    match which {
        1 => said::measured(quality::compute_thd_from_spectrum(a, bin)),
        2 => said::float(quality::compute_enob(read::float(line, 4))),
        3 => quotient(quality::snr_quotient(a, bin)),
        4 => quotient(quality::sinad_quotient(a, bin)),
        5 => sfdr(quality::sfdr_quotient(a, bin)),
        _ => said::nothing(),
    }
}
