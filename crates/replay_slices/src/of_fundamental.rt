// Active and reactive power of the fundamental, at the bin of the words 4 and 5.
use crossing::fundamentals::CodedFundamental;
use replaying::said::Said;
use replaying::{read, said};

pub fn call(line: &[u8], a: &[f32], b: &[f32]) -> Said {
    let bin = read::long(line, 4) as usize;
    let r = CodedFundamental::from(fundamental::fundamental_power(a, b, bin));
    said::with_floats(r.code, &[r.active, r.reactive])
}
