// Replays the oracle's answers to calls on signals, by value and held; then answers with one field wrong, each of which must differ. Crate `replaying`
// says how a case stands in a file, and prints the counts.
#![tactic(auto)]

use replaying::files;
use std::io;

mod cases;
mod of_held;
mod of_signal;

const FILES: [&str; 3] = ["signal", "held", "signal_limits"];

fn main(rt: HostRuntime) -> io::Result<()> {
    files::replay(&rt, &FILES, cases::agrees)
}
