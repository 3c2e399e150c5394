// Replays the oracle's answers to calls on time figures and ports; then answers with one field wrong, each of which must differ. Crate `replaying` says
// how a case stands in a file, and prints the counts.
#![tactic(auto)]

use replaying::files;
use std::io;

mod cases;
mod of_figures;
mod of_port;

const FILES: [&str; 3] = ["figures", "port", "figure_limits"];

fn main(rt: HostRuntime) -> io::Result<()> {
    files::replay(&rt, &FILES, cases::agrees)
}
