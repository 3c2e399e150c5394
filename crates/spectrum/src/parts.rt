// The grid of lengths, which lengths are refused, and one bin of the spectrum, for the spectrum itself and for whoever needs single bins.
ghost use Rattle.std.specs.Prelude.{◌≡◌, ◌<◌, ◌≤◌, true, length};
ghost use Rattle.spectrum.specs.Grid.{on_grid};
ghost use Rattle.spectrum.specs.Bin.{turned, sums_of, size_of, magnitude_of};
ghost use Rattle.spectrum.specs.Spectrum.{halved, outcome_of};

use answers::Refusal;

// A length on the grid is 0, or divides 4,096.
pub fn on_grid(n: usize) -> bool
    ensures { result ≡ on_grid n }
{
    if n == 0 {
        return true;
    }
    4096 % n == 0
}

// The refusals in their order, of n samples and of what was lent.
#[tactic(auto, unfolding(crate::specs::Spectrum::outcome_of))]
pub fn judged(n: usize, short: bool) -> Result<(), Refusal>
    ensures { result ≡ outcome_of n short }
{
    if n > answers::LONGEST {
        return Err(Refusal::TooLong);
    }
    if !on_grid(n) {
        return Err(Refusal::OffGrid);
    }
    if short {
        return Err(Refusal::OutputShort);
    }
    Ok(())
}

// The real and the imaginary sum of a bin.
#[derive(Clone, Copy)]
pub struct Sums {
    pub real: f64,
    pub imag: f64,
}

pub const NO_SUMS: Sums = Sums {
    real: 0.0,
    imag: 0.0,
};

// One sample more.
pub fn turn(s: Sums, x: f64, cosine: f64, sine: f64) -> Sums
    ensures { result ≡ turned s x cosine sine }
{
    Sums {
        real: s.real + x * cosine,
        imag: s.imag - x * sine,
    }
}

// The sums of bin k. The angle goes on by k * 4096 / n steps a sample, around the turn.
pub fn bin_sums(samples: &[f32], k: usize) -> Sums
    requires samples_value { on_grid (length samples.now) ≡ true }
    requires k_in_bounds { k < length samples.now }
    ensures { result ≡ sums_of samples.now k }
{
    let n = samples.len();
    let by = k * (4096 / n);
    let mut sums = NO_SUMS;
    let mut angle: usize = 0;
    for sample in samples {
        let x = std::num::f32_to_f64_with_nan(*sample);
        let cosine = quarter::parts::cosine(angle);
        let sine = quarter::parts::sine(angle);
        sums = turn(sums, x, cosine, sine);
        angle = (angle + by) % 4096;
    }
    sums
}

// The magnitude of a bin of n samples from its sums.
pub fn size(s: Sums, n: usize) -> f32
    requires { n ≤ 4096 }
    ensures { result ≡ size_of s n }
{
    number::narrow(number::sqrt64(s.real * s.real + s.imag * s.imag) * 2.0 / n as f64)
}

// The magnitude of bin k; bin 0 is not halved here.
pub fn bin_magnitude(samples: &[f32], k: usize) -> f32
    requires samples_value { on_grid (length samples.now) ≡ true }
    requires k_in_bounds { k < length samples.now }
    ensures { result ≡ magnitude_of samples.now k }
{
    let sums = bin_sums(samples, k);
    size(sums, samples.len())
}

// Bin 0 has no mirror image among the bins, so the factor 2 is not its own.
#[tactic(auto, unfolding(crate::specs::Spectrum::halved))]
pub fn first_halved(k: usize, magnitude: f32) -> f32
    ensures { result ≡ halved k magnitude }
{
    if k == 0 { magnitude / 2.0 } else { magnitude }
}
