// Signal: its state crosses as a flat record, a wave in it as its number. The caller's samples are lent beside it.
ghost use Rattle.std.specs.Prelude.{◌≡◌};
ghost use Rattle.answers.specs.Left.{left, answered_as};
ghost use Rattle.generator.specs.Wave.{wave_of};
ghost use Rattle.signal.specs.Calls.{reset_of};
ghost use Rattle.signal.specs.Editions.{new_by, new_port_by, phase_by, duty_by};
ghost use Rattle.crossing.specs.PortCrossing.{reading_in};
ghost use Rattle.crossing.specs.SignalCrossing.{state_in, coded_signal};

use crossing::readings::TjReading;
use crossing::signals::{CodedSignal, TjSignal};
use generator::Wave;

#[unsafe(no_mangle)]
pub extern "C" fn tj_signal_new(
    wave: u8,
    amplitude: f32,
    frequency: f32,
    edition: u8,
    samples: &mut [f32],
) -> CodedSignal
    ensures { left result samples.new ≡ answered_as coded_signal (new_by (wave_of wave) amplitude frequency edition samples.old) }
{
    let kind = Wave::from(wave);
    signal::new(kind, amplitude, frequency, edition, samples).into()
}

#[unsafe(no_mangle)]
pub extern "C" fn tj_signal_new_power_port(
    voltage: f32,
    current: f32,
    frequency: TjReading,
    edition: u8,
    samples: &mut [f32],
) -> CodedSignal
    ensures { left result samples.new ≡ answered_as coded_signal (new_port_by voltage current (reading_in frequency) edition samples.old) }
{
    signal::new_power_port(voltage, current, frequency.into(), edition, samples).into()
}

#[unsafe(no_mangle)]
pub extern "C" fn tj_signal_set_phase(
    signal: TjSignal,
    phase: f32,
    samples: &mut [f32],
) -> CodedSignal
    ensures { left result samples.new ≡ answered_as coded_signal (phase_by (state_in signal) phase samples.old) }
{
    signal::set_phase(signal.into(), phase, samples).into()
}

#[unsafe(no_mangle)]
pub extern "C" fn tj_signal_set_duty_cycle(
    signal: TjSignal,
    duty_cycle: f32,
    samples: &mut [f32],
) -> CodedSignal
    ensures { left result samples.new ≡ answered_as coded_signal (duty_by (state_in signal) duty_cycle samples.old) }
{
    signal::set_duty_cycle(signal.into(), duty_cycle, samples).into()
}

#[unsafe(no_mangle)]
pub extern "C" fn tj_signal_reset_waveform(signal: TjSignal, samples: &mut [f32]) -> CodedSignal
    ensures { left result samples.new ≡ answered_as coded_signal (reset_of (state_in signal) samples.old) }
{
    signal::reset_waveform(signal.into(), samples).into()
}
