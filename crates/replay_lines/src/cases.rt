// Cases over capture lines, their codes, the report and the power of codes. None has a slice of samples.
use crate::{of_capture, of_codes, of_limits, of_report};
use replaying::said::Said;
use replaying::{read, said};

fn call(line: &[u8]) -> Said {
    match read::word(line, 2) {
        1 => of_capture::read_case(line),
        2 => of_capture::write_case(line),
        3 => of_report::call(line),
        4 => of_codes::call(line),
        5 => of_limits::read_case(line),
        6 => of_limits::write_case(line),
        7 => of_limits::codes_case(line),
        _ => said::nothing(),
    }
}

// Whether the library answers this line as the oracle did.
pub fn agrees(line: &[u8]) -> bool {
    said::agrees(line, call(line))
}
