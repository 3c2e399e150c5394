// The duty cycle: the part of the samples that are high.
ghost use Rattle.std.specs.Prelude.{◌≡◌, ◌≤◌, length};
ghost use Rattle.answers.specs.Numbers.{longest};
ghost use Rattle.figures.specs.Duty.{near, is_high, highs_of, duty_of};

use generator::Wave;
use number::parts::counted;
use passes::parts::tallied;

// Whether a sample is at the amplitude.
#[tactic(auto, unfolding(crate::specs::Duty::near))]
fn is_near(amplitude: f32, x: f32) -> bool
    ensures { result ≡ near amplitude x }
{
    number::abs32(x - amplitude) < 1e-6
}

// Whether a sample is high: at the amplitude for PWM, above 0 for the other waves.
fn is_high(wave: Wave, amplitude: f32, x: f32) -> bool
    ensures { result ≡ is_high wave amplitude x }
{
    match wave {
        Wave::PWM => is_near(amplitude, x),
        Wave::DC | Wave::Triangular | Wave::Sawtooth => x > 0.0,
    }
}

// How many samples are high.
#[tactic(auto, using(laws::proofs::Turn::over_next, laws::proofs::HowMany::counted_le), unfolding(crate::specs::Duty::highs_of, laws::specs::HowMany::how_many, laws::specs::Walks::over))]
fn count_high(wave: Wave, amplitude: f32, samples: &[f32]) -> u32
    requires { length samples.now ≤ longest }
    ensures { result ≡ highs_of wave amplitude samples.now }
{
    let mut n = 0u32;
    for x in samples {
        n = tallied(n, is_high(wave, amplitude, *x));
    }
    n
}

// The part of the samples that are high.
#[tactic(auto, using(laws::proofs::HowMany::how_many_le), unfolding(crate::specs::Duty::highs_of, crate::specs::Duty::duty_of))]
pub fn duty_of(wave: Wave, amplitude: f32, samples: &[f32]) -> f32
    requires { length samples.now ≤ longest }
    ensures { result ≡ duty_of wave amplitude samples.now }
{
    counted(count_high(wave, amplitude, samples) as usize) / counted(samples.len())
}
