// Calls in a row on a signal that keeps its samples: it is made in a local, lent to one call after another, and what it answered or says at the end is handed
// out. No contract speaks of the struct.
#![tactic(auto)]

mod parts;

ghost use Rattle.std.specs.Prelude.{◌≡◌, [], ◌∷◌};
ghost use Rattle.answers.specs.Left.{left, answered_as};
ghost use Rattle.signal.specs.Editions.{new_by, new_port_by, run_by};
ghost use Rattle.signal.specs.Sequence as Sequence;
ghost use Rattle.sequences.specs.Told.{with_voltage, measured_after, power_told};

use answers::Refusal;
use generator::Wave;
use held::Signal;
use signal::{Answer, Metrics};

// A wave, then its duty cycle and its phase. What is handed out is the last call's answer: 9 where the signal was refused as it was made, whatever for, since
// the zero state has edition 0.
pub fn shaped(
    wave: Wave,
    amplitude: f32,
    frequency: f32,
    edition: u8,
    duty_cycle: f32,
    phase: f32,
    samples: &mut [f32],
) -> Answer
    ensures { left result samples.new
        ≡ run_by (new_by wave amplitude frequency edition samples.old) (Sequence.setting (Sequence.duty duty_cycle) ∷ Sequence.setting (Sequence.phase phase) ∷ []) }
{
    let mut signal = Signal::new(wave, amplitude, frequency, edition, samples);
    signal.set_duty_cycle(duty_cycle);
    signal.set_phase(phase);
    signal.answer
}

// A wave, then its phase, and then silence. The last call's answer again: a reset goes by the samples' number alone, and where that is taken it is done and
// clears them, whatever the edition is.
pub fn emptied(
    wave: Wave,
    amplitude: f32,
    frequency: f32,
    edition: u8,
    phase: f32,
    samples: &mut [f32],
) -> Answer
    ensures { left result samples.new
        ≡ run_by (new_by wave amplitude frequency edition samples.old) (Sequence.setting (Sequence.phase phase) ∷ Sequence.reset ∷ []) }
{
    let mut signal = Signal::new(wave, amplitude, frequency, edition, samples);
    signal.set_phase(phase);
    signal.reset_waveform();
    signal.answer
}

// What is measured of a wave with this duty cycle. Its edition and the number of samples say how the signal is made, and a setting of one that was made is
// not refused.
pub fn measured(
    wave: Wave,
    amplitude: f32,
    frequency: f32,
    edition: u8,
    duty_cycle: f32,
    samples: &mut [f32],
) -> Result<Metrics, Refusal>
    ensures { left result samples.new
        ≡ measured_after (new_by wave amplitude frequency edition samples.old) (Sequence.setting (Sequence.duty duty_cycle)) }
{
    let made = parts::judged(edition, samples.len());
    let metrics = parts::metrics_after(wave, amplitude, frequency, edition, duty_cycle, samples);
    made?;
    Ok(metrics)
}

// The power of a port whose voltage is set to `next`. The voltage is set whether the port was refused or not: what that makes of a refused one is not told.
pub fn powered(
    voltage: f32,
    current: f32,
    frequency: Option<f32>,
    edition: u8,
    next: f32,
    samples: &mut [f32],
) -> Result<f32, Refusal>
    ensures { left result samples.new ≡ answered_as power_told (with_voltage next (new_port_by voltage current frequency edition samples.old)) }
{
    let ended = parts::judged(edition, samples.len());
    let power = parts::power_after(voltage, current, frequency, edition, next, samples);
    ended?;
    Ok(power)
}
