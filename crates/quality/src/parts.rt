// What the calls answer where the bin is usable; also for a spectrum that another crate has worked out.
ghost use Rattle.std.specs.Prelude.{◌≡◌, length};
ghost use Rattle.quality.specs.Powers.{power_in, Inside};
ghost use Rattle.quality.specs.Quality.{thd_of_spectrum, over_noise, snr_of, sinad_of, sfdr_of};

use crate::Sfdr;
use crate::spurs::largest_spur;
use crate::squares::{power_of_blocks, power_of_fours, square};

// The power of all multiples of the bin inside the spectrum, from this order on.
pub fn power(spectrum: &[f32], bin: usize, first: usize) -> f64
    requires { Inside (length spectrum.now) bin first }
    ensures { result ≡ power_in spectrum.now bin first }
{
    let start = power_of_fours(spectrum, bin, power_of_blocks(spectrum, bin, first));
    let mut sum = start.sum;
    for h in start.order..(spectrum.len() - 1) / bin + 1 {
        sum += square(spectrum[bin * h]);
    }
    sum
}

// Total harmonic distortion in percent; 0 for a fundamental below 1e-12.
pub fn distortion(spectrum: &[f32], bin: usize) -> f32
    requires { Inside (length spectrum.now) bin 2 }
    ensures { result ≡ thd_of_spectrum spectrum.now bin }
{
    let fund = spectrum[bin];
    if fund < 1e-12 {
        return 0.0;
    }
    number::sqrt64_narrowed(power(spectrum, bin, 2)) / fund * 100.0
}

// Noise that is not above 0 counts as 1e-30.
fn over_noise(own: f64, noise: f64) -> f64
    ensures { result ≡ over_noise own noise }
{
    if noise > 0.0 {
        own / noise
    } else {
        own / 1e-30
    }
}

// The fundamental's power over that of all other places from 1 on but its multiples.
pub fn snr(spectrum: &[f32], bin: usize) -> f64
    requires { Inside (length spectrum.now) bin 2 }
    ensures { result ≡ snr_of spectrum.now bin }
{
    let own = square(spectrum[bin]);
    let total = power(spectrum, 1, 1);
    let harmonics = power(spectrum, bin, 2);
    over_noise(own, total - own - harmonics)
}

// The fundamental's power over that of all other places from 1 on.
pub fn sinad(spectrum: &[f32], bin: usize) -> f64
    requires { Inside (length spectrum.now) bin 2 }
    ensures { result ≡ sinad_of spectrum.now bin }
{
    let own = square(spectrum[bin]);
    let total = power(spectrum, 1, 1);
    over_noise(own, total - own)
}

// The fundamental over the largest spur; spurs up to 1e-12 are none.
pub fn over_spur(spectrum: &[f32], bin: usize) -> Sfdr
    requires { Inside (length spectrum.now) bin 2 }
    ensures { result ≡ sfdr_of spectrum.now bin }
{
    let fund = spectrum[bin];
    let worst = largest_spur(spectrum, bin);
    if worst > 1e-12 {
        return Sfdr::Ratio(fund / worst);
    }
    Sfdr::NoSpur
}
