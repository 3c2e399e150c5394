// The sine and cosine of each step of 1/4096 turn, from the table of the first quarter.
ghost use Rattle.std.specs.Prelude.{◌≡◌, ◌<◌, ◌≤◌};
ghost use Rattle.quarter.specs.Wave.{t};
ghost use Rattle.quarter.specs.Turn.{fraction, folded, sine_of, cosine_of};

use crate::entries::QUARTER;

// One entry. Its proof shows that the static is the definition's table.
pub fn entry(j: usize) -> u32
    requires { j ≤ 1024 }
    ensures { result ≡ t j }
{
    QUARTER[j]
}

// t(j) / 2^30, which an f64 holds exactly: the factor is 2^-30.
fn fraction_at(j: usize) -> f64
    requires { j ≤ 1024 }
    ensures { result ≡ fraction (t j) }
{
    f64::from(entry(j)) * 0.000000000931322574615478515625
}

// The quarter's place for a step of the half turn.
fn fold(h: usize) -> usize
    requires { h < 2048 }
    ensures { (result ≡ folded h) × (result ≤ 1024) }
{
    if h <= 1024 { h } else { 2048 - h }
}

// The sine of step/4096 of a turn.
pub fn sine(step: usize) -> f64
    requires { step < 4096 }
    ensures { result ≡ sine_of step }
{
    let v = fraction_at(fold(step % 2048));
    if step < 2048 { v } else { -v }
}

// The cosine of step/4096 of a turn.
pub fn cosine(step: usize) -> f64
    requires { step < 4096 }
    ensures { result ≡ cosine_of step }
{
    sine((step + 1024) % 4096)
}
