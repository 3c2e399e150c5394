// The calls of a sequence that ends in a reading, what that says of the state they left, and what of it is told.
ghost use Rattle.std.specs.Prelude.{◌≡◌, [], ◌∷◌};
ghost use Rattle.answers.specs.Left.{left, answered_as};
ghost use Rattle.signal.specs.Editions.{new_by, new_port_by, run_by, outcome_by};
ghost use Rattle.signal.specs.Sequence as Sequence;
ghost use Rattle.sequences.specs.Told.{with_voltage, metrics_in, port_power};

use answers::Refusal;
use generator::Wave;
use held::Signal;
use signal::Metrics;

// How a signal of this edition over n samples is made: 9, 3, 4 or done.
pub fn judged(edition: u8, n: usize) -> Result<(), Refusal>
    ensures { result ≡ outcome_by edition n }
{
    if distortion::editions::highest_order(edition) == 0 {
        return Err(Refusal::UnknownEdition);
    }
    spectrum::parts::judged(n, false)
}

// A wave, then its duty cycle, then its metrics.
pub fn metrics_after(
    wave: Wave,
    amplitude: f32,
    frequency: f32,
    edition: u8,
    duty_cycle: f32,
    samples: &mut [f32],
) -> Metrics
    ensures { left result samples.new
        ≡ answered_as metrics_in (run_by (new_by wave amplitude frequency edition samples.old) (Sequence.setting (Sequence.duty duty_cycle) ∷ [])) }
{
    let mut signal = Signal::new(wave, amplitude, frequency, edition, samples);
    signal.set_duty_cycle(duty_cycle);
    signal.get_metrics()
}

// A port, then its voltage, then its power.
pub fn power_after(
    voltage: f32,
    current: f32,
    frequency: Option<f32>,
    edition: u8,
    next: f32,
    samples: &mut [f32],
) -> f32
    ensures { left result samples.new ≡ answered_as port_power (with_voltage next (new_port_by voltage current frequency edition samples.old)) }
{
    let mut signal = Signal::new_power_port(voltage, current, frequency, edition, samples);
    signal.set_voltage(next);
    signal.instantaneous_power()
}
