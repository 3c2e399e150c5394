// The harmonics' power, and THD at a bin. Each bin is worked out by itself, and none that is not needed.
ghost use Rattle.std.specs.Prelude.{◌≡◌, ◌*◌, ◌/◌, ◌<◌, ◌≤◌, true, length};
ghost use Rattle.std.specs.Float.{binary64};
ghost use Rattle.std.specs.Float.Ieee.{add};
ghost use Rattle.laws.specs.Harmonics.{harmonic_power, last_up_to};
ghost use Rattle.laws.specs.Samples.{square_of};
ghost use Rattle.spectrum.specs.Bin.{magnitude_of};
ghost use Rattle.spectrum.specs.Grid.{on_grid};
ghost use Rattle.distortion.specs.Thd as Thd;

// The last order, of at most `top`, whose bin is below half.
fn last_order(top: usize, half: usize, bin: usize) -> usize
    requires bin_nonzero { 0 < bin }
    requires bin_lt_half { bin < half }
    ensures { result ≡ last_up_to top half bin }
{
    top.min((half - 1) / bin)
}

// One harmonic more.
fn with_square(sum: f64, magnitude: f32) -> f64
    ensures { result ≡ add binary64 sum (square_of magnitude) }
{
    let m = std::num::f32_to_f64_with_nan(magnitude);
    sum + m * m
}

// The power of the harmonics from order 2 to the last.
fn harmonic_power(samples: &[f32], bin: usize, last: usize) -> f64
    requires samples_value { on_grid (length samples.now) ≡ true }
    requires last_in_bounds { bin * last < length samples.now }
    requires le_last { (1 ≤ last) × (last ≤ 65536) }
    ensures { result ≡ harmonic_power (magnitude_of samples.now) bin 2 last }
{
    let mut sum = 0.0;
    for order in 2..=last {
        sum = with_square(sum, spectrum::parts::bin_magnitude(samples, bin * order));
    }
    sum
}

// THD in percent where the fundamental is heard, and else the earlier one.
pub fn thd_at(samples: &[f32], bin: usize, top: usize, earlier: f32) -> f32
    requires samples_value { on_grid (length samples.now) ≡ true }
    requires bin_nonzero { (0 < bin) × (bin < length samples.now / 2) }
    requires le_top { (1 ≤ top) × (top ≤ 65536) }
    ensures { result ≡ Thd.thd_at top bin earlier samples.now }
{
    let fundamental = spectrum::parts::bin_magnitude(samples, bin);
    if fundamental > 1e-12 {
        let last = last_order(top, samples.len() / 2, bin);
        let power = harmonic_power(samples, bin, last);
        return number::sqrt64_narrowed(power) / fundamental * 100.0;
    }
    earlier
}
