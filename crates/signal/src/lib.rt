// A signal by value: its state goes in and comes back, and the caller's samples are lent beside it.
#![tactic(auto)]

mod parts;

ghost use Rattle.std.specs.Prelude.{◌≡◌};
ghost use Rattle.answers.specs.Left.{left};
ghost use Rattle.signal.specs.State.{metrics_of};
ghost use Rattle.signal.specs.Calls.{reset_of};
ghost use Rattle.signal.specs.Editions.{new_by, new_port_by, phase_by, duty_by};

use answers::Refusal;
use figures::TimeFigures;
use generator::{Shape, Wave};
use port::Port;

// What is measured of a signal: the time figures with their two counts, and THD. Its orders go as high as the edition says, 1 or 2. A `new` that was refused
// has 0, and a caller may write any number: where THD is worked out these are refused.
#[derive(Clone, Copy, Drop)]
pub struct Metrics {
    pub figures: TimeFigures,
    pub thd: f32,
    pub edition: u8,
}

// What a signal keeps, its samples apart.
#[derive(Clone, Copy, Drop)]
pub struct State {
    pub shape: Shape,
    pub port: Port,
    pub metrics: Metrics,
}

// How a call ended, and the state.
#[derive(Clone, Copy, Drop)]
pub struct Answer {
    pub outcome: Result<(), Refusal>,
    pub state: State,
}

// A signal of a wave: the samples are generated and measured.
pub fn new(wave: Wave, amplitude: f32, frequency: f32, edition: u8, samples: &mut [f32]) -> Answer
    ensures { left result samples.new ≡ new_by wave amplitude frequency edition samples.old }
{
    parts::remake_by(
        edition,
        parts::zero_state(),
        parts::fresh(wave, amplitude, frequency, edition),
        samples,
    )
}

// A signal as a port of this voltage and current; the frequency is a reading alone.
pub fn new_power_port(
    voltage: f32,
    current: f32,
    frequency: Option<f32>,
    edition: u8,
    samples: &mut [f32],
) -> Answer
    ensures { left result samples.new ≡ new_port_by voltage current frequency edition samples.old }
{
    let made = new(Wave::DC, voltage, 0.0, edition, samples);
    match made.outcome {
        Ok(()) => Answer {
            outcome: Ok(()),
            state: parts::as_port(made.state, voltage, current, frequency),
        },
        Err(_) => made,
    }
}

// Another phase, in degrees: the samples are generated and measured again.
pub fn set_phase(state: State, phase: f32, samples: &mut [f32]) -> Answer
    ensures { left result samples.new ≡ phase_by state phase samples.old }
{
    let edition = state.metrics.edition;
    parts::remake_by(edition, state, parts::with_phase(state, phase), samples)
}

// Another duty cycle, held between 0 and 1: the samples are generated and measured again.
pub fn set_duty_cycle(state: State, duty_cycle: f32, samples: &mut [f32]) -> Answer
    ensures { left result samples.new ≡ duty_by state duty_cycle samples.old }
{
    let edition = state.metrics.edition;
    parts::remake_by(edition, state, parts::with_duty(state, duty_cycle), samples)
}

// Samples and all that is measured of them to zero.
pub fn reset_waveform(state: State, samples: &mut [f32]) -> Answer
    ensures { left result samples.new ≡ reset_of state samples.old }
{
    match spectrum::parts::judged(samples.len(), false) {
        Ok(()) => {
            samples.fill(0.0);
            Answer {
                outcome: Ok(()),
                state: parts::silenced(state),
            }
        }
        Err(refusal) => Answer {
            outcome: Err(refusal),
            state,
        },
    }
}

// The time figures with their counts, THD, and the number of its edition.
pub fn get_metrics(state: State) -> Metrics
    ensures { result ≡ metrics_of state }
{
    state.metrics
}
