// Four bins in one walk over the samples. Each has its own sums, in index order; the sines stand in the lent scratch.
ghost use Rattle.std.specs.Prelude.{◌≡◌, ◌+◌, ◌/◌, ◌%◌, ◌<◌, ◌≤◌, true, length};
ghost use Rattle.laws.specs.Filled.{filled};
ghost use Rattle.spectrum.specs.Grid.{on_grid};
ghost use Rattle.spectrum.specs.Bin.{sums_of};
ghost use Rattle.spectrum.specs.Spectrum.{bins};
ghost use Rattle.spectrum.specs.Sines.{Sines, sine_at};
ghost use Rattle.spectrum.specs.Running.{stepped, stored, stored_four};

use crate::parts;

// The sine of each of the n places around the turn, in its place.
pub fn fill_sines(n: usize, scratch: &mut [f64])
    requires n_value { on_grid n ≡ true }
    requires n_in_bounds { n ≤ length scratch.old }
    ensures { scratch.new ≡ filled (sine_at n) n scratch.old }
{
    for j in 0..n {
        scratch[j] = quarter::parts::sine(j * (4096 / n));
    }
}

// A bin underway: its sums so far, and the place around the turn of the next sample.
#[derive(Clone, Copy)]
pub struct Running {
    pub sums: parts::Sums,
    pub at: usize,
}

const START: Running = Running {
    sums: parts::NO_SUMS,
    at: 0,
};

// A place around the turn. The length is a power of two, so a mask takes the remainder.
fn around(n: usize, place: usize) -> usize
    requires n_value { on_grid n ≡ true }
    requires n_nonzero { 0 < n }
    ensures { (result ≡ place % n) × (result < n) }
{
    place & (n - 1)
}

// One sample more of bin k; the cosine stands a quarter of the turn on.
fn step(sines: &[f64], n: usize, b: Running, x: f64, k: usize) -> Running
    requires sines { Sines n sines.now }
    requires n_value { on_grid n ≡ true }
    requires le_n { 8 ≤ n }
    requires at_lt_n { b.at < n }
    requires k_lt_n { k < n }
    ensures { result ≡ stepped n b x k }
{
    let ahead = around(n, b.at + n / 4);
    Running {
        sums: parts::turn(b.sums, x, sines[ahead], sines[b.at]),
        at: around(n, b.at + k),
    }
}

// The sums of four bins: a field for each and no array, since `stored_four` of specs/Running.antt names them.
#[derive(Clone, Copy)]
pub struct Four {
    pub first: parts::Sums,
    pub second: parts::Sums,
    pub third: parts::Sums,
    pub fourth: parts::Sums,
}

// The sums of the bins k to k + 3.
fn four_sums(sines: &[f64], samples: &[f32], k: usize) -> Four
    requires sines { Sines (length samples.now) sines.now }
    requires samples_value { on_grid (length samples.now) ≡ true }
    requires in_bounds { 8 ≤ length samples.now }
    requires k_in_bounds { k + 3 < length samples.now }
    ensures { (result.first ≡ sums_of samples.now k) × (result.second ≡ sums_of samples.now (k + 1))
        × (result.third ≡ sums_of samples.now (k + 2)) × (result.fourth ≡ sums_of samples.now (k + 3)) }
{
    let n = samples.len();
    let mut first = START;
    let mut second = START;
    let mut third = START;
    let mut fourth = START;
    for sample in samples {
        let x = std::num::f32_to_f64_with_nan(*sample);
        first = step(sines, n, first, x, k);
        second = step(sines, n, second, x, k + 1);
        third = step(sines, n, third, x, k + 2);
        fourth = step(sines, n, fourth, x, k + 3);
    }
    Four {
        first: first.sums,
        second: second.sums,
        third: third.sums,
        fourth: fourth.sums,
    }
}

// Bin k of n samples, from its sums into its place.
fn store(output: &mut [f32], k: usize, s: parts::Sums, n: usize)
    requires k_in_bounds { k < length output.old }
    requires n_bound { n ≤ 4096 }
    ensures { output.new ≡ stored output.old k s n }
{
    output[k] = parts::first_halved(k, parts::size(s, n));
}

// The bins k to k + 3.
fn store_four(output: &mut [f32], k: usize, r: Four, n: usize)
    requires k_in_bounds { k + 3 < length output.old }
    requires n_bound { n ≤ 4096 }
    ensures { output.new ≡ stored_four output.old k r n }
{
    store(output, k, r.first, n);
    store(output, k + 1, r.second, n);
    store(output, k + 2, r.third, n);
    store(output, k + 3, r.fourth, n);
}

// The bins below half the length, four a turn.
pub fn fill_by_four(sines: &[f64], samples: &[f32], output: &mut [f32])
    requires sines { Sines (length samples.now) sines.now }
    requires samples_value { on_grid (length samples.now) ≡ true }
    requires in_bounds { 8 ≤ length samples.now }
    requires samples_in_bounds { length samples.now / 2 ≤ length output.old }
    ensures { output.new ≡ bins samples.now output.old }
{
    let n = samples.len();
    let half = n / 2;
    for turn in 0..half / 4 {
        let k = 4 * turn;
        store_four(output, k, four_sums(sines, samples, k), n);
    }
}
