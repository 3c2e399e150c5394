// One sample of each wave, operation by operation as the Rust.
ghost use Rattle.std.specs.Prelude.{◌≡◌, ◌≤◌, ◌<◌};
ghost use Rattle.answers.specs.Numbers.{longest};
ghost use Rattle.generator.specs.Sample.{samples_per_period, pwm_at, t_mod, triangular_at, sawtooth_at, sample_at};

use crate::remainder::remainder;
use crate::{Shape, Wave};
use number::parts::counted;

const PI: f32 = 3.14159265358979323846264338327950288;

fn samples_per_period(frequency: f32, n: f32) -> f32
    ensures { result ≡ samples_per_period frequency n }
{
    if frequency >= n { n } else { n / frequency }
}

fn pwm_at(s: Shape, n: f32, i: f32) -> f32
    ensures { result ≡ pwm_at s n i }
{
    let period = samples_per_period(s.frequency, n);
    let sample_in_period = remainder(i, period);
    if sample_in_period / period < s.duty_cycle {
        s.amplitude
    } else {
        0.0
    }
}

// Where in its period place i of n lies, in seconds.
fn t_mod(s: Shape, n: f32, i: f32) -> f32
    ensures { result ≡ t_mod s n i }
{
    let t = i / n;
    let angular_freq = 2.0 * PI * s.frequency;
    let phase_rad = s.phase * PI / 180.0;
    let period = 1.0 / s.frequency;
    remainder(t + phase_rad / angular_freq, period)
}

fn triangular_at(s: Shape, n: f32, i: f32) -> f32
    ensures { result ≡ triangular_at s n i }
{
    let period = 1.0 / s.frequency;
    let normalized = t_mod(s, n, i) / period;
    if normalized < 0.5 {
        s.amplitude * (4.0 * normalized - 1.0)
    } else {
        s.amplitude * (3.0 - 4.0 * normalized)
    }
}

fn sawtooth_at(s: Shape, n: f32, i: f32) -> f32
    ensures { result ≡ sawtooth_at s n i }
{
    let period = 1.0 / s.frequency;
    let t = t_mod(s, n, i);
    s.amplitude * (2.0 * t / period - 1.0)
}

// The sample at place i of n.
pub fn sample_at(s: Shape, n: usize, i: usize) -> f32
    requires { (n ≤ longest) × (i < n) }
    ensures { result ≡ sample_at s n i }
{
    let length = counted(n);
    let place = counted(i);
    match s.wave {
        Wave::DC => s.amplitude,
        Wave::PWM => pwm_at(s, length, place),
        Wave::Triangular => triangular_at(s, length, place),
        Wave::Sawtooth => sawtooth_at(s, length, place),
    }
}
