// The magnitude spectrum over the quarter wave: one bin at a time in little memory, or several at a time with lent scratch.
#![tactic(auto)]

ghost use Rattle.std.specs.Prelude.{◌≡◌, ◌/◌, ◌≤◌, true, length};
ghost use Rattle.answers.specs.Left.{left};
ghost use Rattle.laws.specs.Filled.{filled};
ghost use Rattle.spectrum.specs.Grid.{on_grid};
ghost use Rattle.spectrum.specs.Spectrum.{bins, spectrum_of};
ghost use Rattle.spectrum.specs.Sines.{sine_at, spectrum_in};

use answers::Refusal;

pub mod parts;
mod several;

// The bins below half the length, one after the other.
fn fill(samples: &[f32], output: &mut [f32])
    requires samples_value { on_grid (length samples.now) ≡ true }
    requires samples_in_bounds { length samples.now / 2 ≤ length output.old }
    ensures { output.new ≡ bins samples.now output.old }
{
    let half = samples.len() / 2;
    for k in 0..half {
        output[k] = parts::first_halved(k, parts::bin_magnitude(samples, k));
    }
}

// The magnitude spectrum of the samples.
#[tactic(auto, using(crate::proofs::Ends::none_holds, answers::proofs::Ended::if_done_lem, answers::proofs::Ended::if_refused), unfolding(crate::specs::Spectrum::spectrum_of))]
pub fn dft_magnitude_spectrum(samples: &[f32], output: &mut [f32]) -> Result<(), Refusal>
    ensures { left result output.new ≡ spectrum_of samples.now output.old }
{
    let n = samples.len();
    parts::judged(n, output.len() < n / 2)?;
    fill(samples, output);
    Ok(())
}

// The sines into the scratch, and then the bins: four at a time where there are as many.
fn fill_in(samples: &[f32], scratch: &mut [f64], output: &mut [f32])
    requires samples_value { on_grid (length samples.now) ≡ true }
    requires samples_in_bounds { length samples.now ≤ length scratch.old }
    requires samples_in_bounds_2 { length samples.now / 2 ≤ length output.old }
    ensures scratch_after { scratch.new ≡ filled (sine_at (length samples.now)) (length samples.now) scratch.old }
    ensures output_after { output.new ≡ bins samples.now output.old }
{
    several::fill_sines(samples.len(), scratch);
    if samples.len() < 8 {
        fill(samples, output);
    } else {
        several::fill_by_four(scratch, samples, output);
    }
}

// The same spectrum, several bins at a time. The scratch is lent for the sines, one for each sample, and holds them afterwards.
#[tactic(auto, using(crate::proofs::Ends::none_holds, crate::proofs::Ends::room_for_both, answers::proofs::Ended::if_done_lem, answers::proofs::Ended::if_refused), unfolding(crate::specs::Sines::spectrum_in))]
pub fn dft_magnitude_spectrum_in(
    samples: &[f32],
    scratch: &mut [f64],
    output: &mut [f32],
) -> Result<(), Refusal>
    ensures { left result (output.new, scratch.new)
        ≡ spectrum_in samples.now scratch.old output.old }
{
    let n = samples.len();
    parts::judged(n, (output.len() < n / 2) | (scratch.len() < n))?;
    fill_in(samples, scratch, output);
    Ok(())
}
