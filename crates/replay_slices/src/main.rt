// Replays the oracle's answers to calls on numbers and slices; then answers with one field wrong, each of which must differ. Crate `replaying` says how a
// case stands in a file, and prints the counts.
#![tactic(auto)]

use replaying::files;
use std::io;

mod cases;
mod of_fundamental;
mod of_generator;
mod of_number;
mod of_power;
mod of_quality;
mod of_samples;
mod of_spectrum;
mod of_timing;

const FILES: [&str; 9] = [
    "number",
    "samples",
    "timing",
    "power",
    "spectrum",
    "quality",
    "generator",
    "fundamental",
    "limits",
];

fn main(rt: HostRuntime) -> io::Result<()> {
    files::replay(&rt, &FILES, cases::agrees)
}
