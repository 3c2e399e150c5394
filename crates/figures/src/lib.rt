// The time figures of a capture: extremes, means, duty cycle, rise and fall, crest, frequency, slew rate, overshoot; and how many samples were no number or infinite.
#![tactic(auto)]

mod duty;
mod edges;
mod levels;
mod nonfinite;
mod ratios;

ghost use Rattle.std.specs.Prelude.{◌≡◌, ◌≤◌, length};
ghost use Rattle.answers.specs.Numbers.{longest};
ghost use Rattle.figures.specs.Figures.{figures_of, answer_of};

use answers::{LONGEST, Refusal};
use generator::Wave;

// The fields of the Rust's SignalMetrics in its order, without those of the spectrum; then the two counts.
#[repr(C)]
#[derive(Clone, Copy, Drop)]
pub struct TimeFigures {
    pub peak_to_peak: f32,
    pub max: f32,
    pub min: f32,
    pub positive_peak: f32,
    pub negative_peak: f32,
    pub average: f32,
    pub dc_rms: f32,
    pub ac_rms: f32,
    pub duty_cycle_pos: f32,
    pub duty_cycle_neg: f32,
    pub rise_time: f32,
    pub fall_time: f32,
    pub crest_factor: f32,
    pub frequency: f32,
    pub period: f32,
    pub form_factor: f32,
    pub overshoot: f32,
    pub undershoot: f32,
    pub slew_rate: f32,
    pub not_numbers: u32,
    pub infinite: u32,
}

// The figures before anything is measured.
pub const ZERO_FIGURES: TimeFigures = TimeFigures {
    peak_to_peak: 0.0,
    max: 0.0,
    min: 0.0,
    positive_peak: 0.0,
    negative_peak: 0.0,
    average: 0.0,
    dc_rms: 0.0,
    ac_rms: 0.0,
    duty_cycle_pos: 0.0,
    duty_cycle_neg: 0.0,
    rise_time: 0.0,
    fall_time: 0.0,
    crest_factor: 0.0,
    frequency: 0.0,
    period: 0.0,
    form_factor: 0.0,
    overshoot: 0.0,
    undershoot: 0.0,
    slew_rate: 0.0,
    not_numbers: 0,
    infinite: 0,
};

// The record of at least one sample. For frequency and slew rate the samples are one second, so their count is the rate.
fn measure(wave: Wave, amplitude: f32, frequency: f32, samples: &[f32]) -> TimeFigures
    requires { length samples.now ≤ longest }
    ensures { result ≡ figures_of wave amplitude frequency samples.now }
{
    let level = levels::levels_of(samples);
    let counts = nonfinite::counts_of(samples, level.rectified);
    let swing = level.max - level.min;
    let duty = duty::duty_of(wave, amplitude, samples);
    let times = edges::times_of(samples, level.min, swing, frequency);
    let rate = number::parts::counted(samples.len());
    let hertz = timing::parts::frequency(samples, level.average, rate);
    let slew = timing::parts::slew(samples, rate);
    TimeFigures {
        peak_to_peak: swing,
        max: level.max,
        min: level.min,
        positive_peak: level.max - level.average,
        negative_peak: level.average - level.min,
        average: level.average,
        dc_rms: level.dc_rms,
        ac_rms: level.ac_rms,
        duty_cycle_pos: duty,
        duty_cycle_neg: 1.0 - duty,
        rise_time: times.rise,
        fall_time: times.fall,
        crest_factor: ratios::crest(level.max, level.min, level.dc_rms),
        frequency: hertz,
        period: ratios::period(hertz),
        form_factor: ratios::ratio(level.dc_rms, level.rectified),
        overshoot: ratios::excess(level.max, amplitude, swing),
        undershoot: ratios::excess(-amplitude, level.min, swing),
        slew_rate: slew,
        not_numbers: counts.not_numbers,
        infinite: counts.infinite,
    }
}

// Steps 1 to 9 of the Rust's calculate_metrics. With no samples the earlier record comes back.
#[tactic(auto, unfolding(crate::specs::Figures::answer_of))]
pub fn calculate_time_figures(
    wave: Wave,
    amplitude: f32,
    frequency: f32,
    earlier: TimeFigures,
    samples: &[f32],
) -> Result<TimeFigures, Refusal>
    ensures { result ≡ answer_of wave amplitude frequency earlier samples.now }
{
    if samples.len() > LONGEST {
        return Err(Refusal::TooLong);
    }
    if samples.is_empty() {
        return Ok(earlier);
    }
    Ok(measure(wave, amplitude, frequency, samples))
}
