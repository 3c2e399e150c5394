// What the calls are made of.
ghost use Rattle.std.specs.Prelude.{◌≡◌, true, ℕ, ◌≤◌, length};
ghost use Rattle.answers.specs.Numbers.{done};
ghost use Rattle.answers.specs.Left.{left};
ghost use Rattle.laws.specs.Filled.{filled};
ghost use Rattle.laws.specs.Literals.{zero32};
ghost use Rattle.spectrum.specs.Grid.{on_grid};
ghost use Rattle.signal.specs.State as S;
ghost use Rattle.signal.specs.Calls.{answer, made, remade};
ghost use Rattle.signal.specs.Editions.{remade_by};

use crate::{Answer, Metrics, State};
use answers::Refusal;
use figures::{TimeFigures, ZERO_FIGURES};
use generator::{Shape, Wave};
use port::Port;

// Nothing is measured, in this edition.
fn unmeasured(edition: u8) -> Metrics
    ensures { result ≡ S.unmeasured edition }
{
    Metrics {
        figures: ZERO_FIGURES,
        thd: 0.0,
        edition,
    }
}

// What a refused `new` answers.
pub fn zero_state() -> State
    ensures { result ≡ S.zero_state }
{
    let mut port = port::cleared_port();
    port.is_enabled = false;
    State {
        shape: Shape {
            wave: Wave::DC,
            amplitude: 0.0,
            phase: 0.0,
            frequency: 0.0,
            duty_cycle: 0.0,
        },
        port,
        metrics: unmeasured(0),
    }
}

// The frequency as a reading: absent for DC.
fn frequency_of(wave: Wave, frequency: f32) -> Option<f32>
    ensures { result ≡ S.frequency_reading wave frequency }
{
    match wave {
        Wave::DC => None,
        _ => Some(frequency),
    }
}

// The state before anything is generated.
#[tactic(auto, unfolding(crate::specs::State::fresh))]
pub fn fresh(wave: Wave, amplitude: f32, frequency: f32, edition: u8) -> State
    ensures { result ≡ S.fresh wave amplitude frequency edition }
{
    State {
        shape: Shape {
            wave,
            amplitude,
            phase: 0.0,
            frequency,
            duty_cycle: 0.5,
        },
        port: port::cleared_port().set_frequency(frequency_of(wave, frequency)),
        metrics: unmeasured(edition),
    }
}

#[tactic(auto, unfolding(crate::specs::State::with_phase))]
pub fn with_phase(mut state: State, phase: f32) -> State
    ensures { result ≡ S.with_phase state phase }
{
    state.shape.phase = phase;
    state
}

// A NaN is not above 0, so it becomes 0.
#[tactic(auto, unfolding(crate::specs::State::clamped))]
fn clamped(d: f32) -> f32
    ensures { result ≡ S.clamped d }
{
    if d > 0.0 {
        if d < 1.0 {
            return d;
        }
        return 1.0;
    }
    0.0
}

#[tactic(auto, unfolding(crate::specs::State::with_duty))]
pub fn with_duty(mut state: State, duty_cycle: f32) -> State
    ensures { result ≡ S.with_duty state duty_cycle }
{
    state.shape.duty_cycle = clamped(duty_cycle);
    state
}

// The mean of a DC signal, the RMS of any other.
#[tactic(auto, unfolding(crate::specs::State::voltage_of))]
fn voltage_of(wave: Wave, figures: TimeFigures) -> f32
    ensures { result ≡ S.voltage_of wave figures }
{
    match wave {
        Wave::DC => figures.average,
        _ => figures.dc_rms,
    }
}

// The readings that follow what is measured.
#[tactic(auto, unfolding(crate::specs::State::levelled))]
fn levelled(port: Port, voltage: f32, crest: f32, thd: f32) -> Port
    ensures { result ≡ S.levelled port voltage crest thd }
{
    port.set_voltage(voltage)
        .set_voltage_crest_factor(Some(crest))
        .set_voltage_thd(Some(thd))
}

// The state with what is measured of the samples, THD of orders up to `top`.
#[tactic(auto, unfolding(crate::specs::State::with_measured))]
fn measure(top: usize, state: State, samples: &[f32]) -> State
    requires samples_value { on_grid (length samples.now) ≡ true }
    requires le_top { (1 ≤ top) × (top ≤ 65536) }
    ensures { result ≡ S.with_measured top state samples.now }
{
    let State {
        shape,
        port,
        metrics: before,
    } = state;
    let figures = figures::calculate_time_figures(
        shape.wave,
        shape.amplitude,
        shape.frequency,
        before.figures,
        samples,
    )
    .unwrap_or(before.figures);
    let voltage = voltage_of(shape.wave, figures);
    let thd = distortion::parts::thd(samples, shape.frequency, top, before.thd);
    State {
        shape,
        port: levelled(port, voltage, figures.crest_factor, thd),
        metrics: Metrics {
            figures,
            thd,
            edition: before.edition,
        },
    }
}

// The samples of the state's shape, and the state with what is measured of them.
fn make(top: usize, state: State, samples: &mut [f32]) -> State
    requires samples_value { on_grid (length samples.old) ≡ true }
    requires le_top { (1 ≤ top) × (top ≤ 65536) }
    ensures { left (answer done result) samples.new ≡ made top state samples.old }
{
    let shape = state.shape;
    // more samples than are generated are off the grid
    let _ = generator::generate_samples(
        shape.wave,
        shape.amplitude,
        shape.phase,
        shape.frequency,
        shape.duty_cycle,
        &mut *samples,
    );
    measure(top, state, samples)
}

// The next state with its samples, or where the length is refused the earlier one.
fn remake(top: usize, earlier: State, next: State, samples: &mut [f32]) -> Answer
    requires { (1 ≤ top) × (top ≤ 65536) }
    ensures { left result samples.new ≡ remade top earlier next samples.old }
{
    match spectrum::parts::judged(samples.len(), false) {
        Ok(()) => Answer {
            outcome: Ok(()),
            state: make(top, next, samples),
        },
        Err(refusal) => Answer {
            outcome: Err(refusal),
            state: earlier,
        },
    }
}

// The same in this edition; where there is none of that number, the state before.
#[tactic(auto, using(distortion::proofs::ByEdition::edition_unknown), unfolding(crate::specs::Editions::remade_by))]
pub fn remake_by(edition: u8, before: State, next: State, samples: &mut [f32]) -> Answer
    ensures { left result samples.new ≡ remade_by edition before next samples.old }
{
    let top = distortion::editions::highest_order(edition);
    if top == 0 {
        return Answer {
            outcome: Err(Refusal::UnknownEdition),
            state: before,
        };
    }
    remake(top, before, next, samples)
}

// The state of silent samples.
#[tactic(auto, unfolding(crate::specs::State::silenced))]
pub fn silenced(state: State) -> State
    ensures { result ≡ S.silenced state }
{
    State {
        shape: state.shape,
        port: levelled(state.port, 0.0, 0.0, 0.0),
        metrics: unmeasured(state.metrics.edition),
    }
}

// The readings of a port of this voltage and current.
#[tactic(auto, unfolding(crate::specs::State::as_port))]
pub fn as_port(mut state: State, voltage: f32, current: f32, frequency: Option<f32>) -> State
    ensures { result ≡ S.as_port state voltage current frequency }
{
    let power = voltage * current;
    let apparent = number::abs32(power);
    state.port = state
        .port
        .set_voltage(voltage)
        .set_current(current)
        .set_frequency(frequency)
        .set_phase_angle(Some(0.0))
        .set_active_power(power)
        .set_apparent_power(Some(apparent))
        .set_power_factor(Some(1.0))
        .set_displacement_pf(Some(1.0));
    state
}
