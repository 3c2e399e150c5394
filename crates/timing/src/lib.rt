// Frequency by rising crossings of the mean, and the largest slew rate.
#![tactic(auto)]

ghost use Rattle.std.specs.Prelude.{◌≡◌};
ghost use Rattle.timing.specs.Timing.{frequency_answer, slew_answer};

use answers::{LONGEST, Refusal};

pub mod parts;

// The frequency in hertz at this many samples a second; 0 under two crossings.
#[tactic(auto, unfolding(crate::specs::Timing::frequency_answer))]
pub fn measure_frequency(samples: &[f32], sample_rate: f32) -> Result<f32, Refusal>
    ensures { result ≡ frequency_answer samples.now sample_rate }
{
    let n = samples.len();
    if n > LONGEST {
        return Err(Refusal::TooLong);
    }
    let average = parts::mean(parts::total(samples), n);
    Ok(parts::frequency(samples, average, sample_rate))
}

// The largest change between neighbours, a second; 0 for a rate of 0 or below.
#[tactic(auto, unfolding(crate::specs::Timing::slew_answer))]
pub fn slew_rate(samples: &[f32], sample_rate: f32) -> Result<f32, Refusal>
    ensures { result ≡ slew_answer samples.now sample_rate }
{
    if samples.len() > LONGEST {
        return Err(Refusal::TooLong);
    }
    Ok(parts::slew(samples, sample_rate))
}
