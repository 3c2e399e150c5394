// The levels of the samples: extremes, means and RMS values.
ghost use Rattle.std.specs.Prelude.{◌≡◌, true, false, ◌≤◌, length};
ghost use Rattle.std.specs.Float.{inf};
ghost use Rattle.answers.specs.Numbers.{longest};
ghost use Rattle.laws.specs.Samples.{higher, lower};
ghost use Rattle.laws.specs.Walks.{over};
ghost use Rattle.figures.specs.Levels.{extremes_of, level_sums, ripple_of, levels_of};

use passes::parts::{lowered, raised};
use timing::parts::mean;

#[derive(Clone, Copy, Drop)]
pub struct Extremes {
    pub max: f32,
    pub min: f32,
}

// The next place from here on with a sample beyond the extremes, or the end. (A search: no sample waits for the one before it.)
#[tactic(auto, using(laws::proofs::Turn::over_next), unfolding(laws::specs::Samples::higher, laws::specs::Samples::lower))]
fn next_extreme(samples: &[f32], max: f32, min: f32, from: usize) -> usize
    requires { (from ≤ length samples.now) × (max ≡ over higher (inf true) samples.now from) × (min ≡ over lower (inf false) samples.now from) }
    ensures { (from ≤ result) × (result ≤ length samples.now) × (max ≡ over higher (inf true) samples.now result) × (min ≡ over lower (inf false) samples.now result) }
{
    for k in from..samples.len() {
        let x = samples[k];
        if max < x || x < min {
            return k;
        }
    }
    samples.len()
}

// From minus infinity and infinity: a NaN is no extreme.
fn find_extremes(samples: &[f32]) -> Extremes
    ensures { result ≡ extremes_of samples.now }
{
    let mut max: f32 = f32::from_bits(0xff80_0000);
    let mut min: f32 = f32::from_bits(0x7f80_0000);
    let mut k = 0usize;
    // no `for`: each search says where the next begins
    while k < samples.len() {
        max = raised(max, samples[k]);
        min = lowered(min, samples[k]);
        k = next_extreme(samples, max, min, k + 1);
    }
    Extremes { max, min }
}

// Of the samples, their squares and their sizes.
#[derive(Clone, Copy, Drop)]
pub struct Sums {
    pub total: f64,
    pub squares: f64,
    pub sizes: f64,
}

// The three sums in one loop: their additions run side by side. The first NaN decides all three.
fn sum_up(samples: &[f32]) -> Sums
    ensures { result ≡ level_sums samples.now }
{
    let mut total: f64 = 0.0;
    let mut squares: f64 = 0.0;
    let mut sizes: f64 = 0.0;
    for sample in samples {
        let sample = *sample;
        if sample != sample {
            return Sums {
                total: 0.0 / 0.0,
                squares: 0.0 / 0.0,
                sizes: 0.0 / 0.0,
            };
        }
        let x = sample as f64;
        total += x;
        squares += x * x;
        let size = number::abs32(sample);
        sizes += size as f64;
    }
    Sums {
        total,
        squares,
        sizes,
    }
}

// The squares of the f32 differences from the average. The first that is a NaN decides the sum.
fn ripple(samples: &[f32], average: f32) -> f64
    ensures { result ≡ ripple_of average samples.now }
{
    let mut squares: f64 = 0.0;
    for sample in samples {
        let away = *sample - average;
        if away != away {
            return 0.0 / 0.0;
        }
        let x = away as f64;
        squares += x * x;
    }
    squares
}

#[derive(Clone, Copy, Drop)]
pub struct Levels {
    pub max: f32,
    pub min: f32,
    pub average: f32,
    pub dc_rms: f32,
    pub ac_rms: f32,
    pub rectified: f32,
}

// Each mean is narrowed first, and then a root is an f32's.
pub fn levels_of(samples: &[f32]) -> Levels
    requires { length samples.now ≤ longest }
    ensures { result ≡ levels_of samples.now }
{
    let n = samples.len();
    let extreme = find_extremes(samples);
    let sums = sum_up(samples);
    let average = mean(sums.total, n);
    let spread = ripple(samples, average);
    Levels {
        max: extreme.max,
        min: extreme.min,
        average,
        dc_rms: number::sqrt32(mean(sums.squares, n)),
        ac_rms: number::sqrt32(mean(spread, n)),
        rectified: mean(sums.sizes, n),
    }
}
