// Distortion, and the quotients behind the signal-to-noise figures, of a magnitude spectrum whose place 0 is the constant part.
#![tactic(auto)]

pub mod parts;
mod spurs;
mod squares;
mod verdict;

ghost use Rattle.std.specs.Prelude.{◌≡◌};
ghost use Rattle.quality.specs.Quality.{answer_thd, enob_of, snr_of, sinad_of, answer_quotient, answer_sfdr};

use answers::Refusal;
use verdict::judge;

// What SFDR hands to the logarithm.
#[derive(Clone, Copy)]
pub enum Sfdr {
    Ratio(f32),
    NoSpur,
    UnusableBin,
}

// Total harmonic distortion in percent: the multiples of the bin against the fundamental; 0 for a bin of 0 or past the end.
#[tactic(auto, using(crate::proofs::Verdicts::refused, crate::proofs::Verdicts::unusable, crate::proofs::Verdicts::measured, crate::proofs::Verdicts::usable), unfolding(crate::specs::Quality::answer_thd))]
pub fn compute_thd_from_spectrum(spectrum: &[f32], fundamental_bin: usize) -> Result<f32, Refusal>
    ensures { result ≡ answer_thd spectrum.now fundamental_bin }
{
    if !judge(spectrum.len(), fundamental_bin)? {
        return Ok(0.0);
    }
    Ok(parts::distortion(spectrum, fundamental_bin))
}

// Effective number of bits, from SINAD in decibels.
pub fn compute_enob(sinad_db: f32) -> f32
    ensures { result ≡ enob_of sinad_db }
{
    (sinad_db - 1.76) / 6.02
}

// What SNR hands to the logarithm: the fundamental's power over that of the noise, all places from 1 on without the fundamental and its multiples.
// Here and for SINAD, None for a bin of 0 or past the end.
#[tactic(auto, using(crate::proofs::Verdicts::refused, crate::proofs::Verdicts::quotient, crate::proofs::Verdicts::usable), unfolding(crate::specs::Quality::answer_quotient))]
pub fn snr_quotient(spectrum: &[f32], fundamental_bin: usize) -> Result<Option<f64>, Refusal>
    ensures { result ≡ answer_quotient snr_of spectrum.now fundamental_bin }
{
    let usable = judge(spectrum.len(), fundamental_bin)?;
    Ok(usable.then(|| parts::snr(spectrum, fundamental_bin)))
}

// What SINAD hands to the logarithm: the fundamental's power over that of noise and distortion, all places from 1 on without the fundamental.
#[tactic(auto, using(crate::proofs::Verdicts::refused, crate::proofs::Verdicts::quotient, crate::proofs::Verdicts::usable), unfolding(crate::specs::Quality::answer_quotient))]
pub fn sinad_quotient(spectrum: &[f32], fundamental_bin: usize) -> Result<Option<f64>, Refusal>
    ensures { result ≡ answer_quotient sinad_of spectrum.now fundamental_bin }
{
    let usable = judge(spectrum.len(), fundamental_bin)?;
    Ok(usable.then(|| parts::sinad(spectrum, fundamental_bin)))
}

// The fundamental over the largest other magnitude from place 1 on.
#[tactic(auto, using(crate::proofs::Verdicts::refused, crate::proofs::Verdicts::unusable, crate::proofs::Verdicts::measured, crate::proofs::Verdicts::usable), unfolding(crate::specs::Quality::answer_sfdr))]
pub fn sfdr_quotient(spectrum: &[f32], fundamental_bin: usize) -> Result<Sfdr, Refusal>
    ensures { result ≡ answer_sfdr spectrum.now fundamental_bin }
{
    if !judge(spectrum.len(), fundamental_bin)? {
        return Ok(Sfdr::UnusableBin);
    }
    Ok(parts::over_spur(spectrum, fundamental_bin))
}
