// Replays the oracle's answers to calls on capture lines and their codes; then answers with one field wrong, each of which must differ. Crate `replaying`
// says how a case stands in a file, and prints the counts.
#![tactic(auto)]

use replaying::files;
use std::io;

mod cases;
mod of_capture;
mod of_codes;
mod of_limits;
mod of_report;

const FILES: [&str; 4] = ["capture", "codes", "report", "capture_limits"];

fn main(rt: HostRuntime) -> io::Result<()> {
    files::replay(&rt, &FILES, cases::agrees)
}
