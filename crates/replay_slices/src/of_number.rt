// The number kit.
use replaying::said::Said;
use replaying::{read, said};

pub fn call(line: &[u8], which: u32) -> Said {
    match which {
        1 => said::float(number::narrow(read::double(line, 4))),
        2 => said::double(number::sqrt64(read::double(line, 4))),
        3 => said::float(number::sqrt32(read::float(line, 4))),
        4 => said::float(number::abs32(read::float(line, 4))),
        5 => said::float(number::round32(read::float(line, 4))),
        _ => said::nothing(),
    }
}
