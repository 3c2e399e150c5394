// A signal that keeps the caller's samples beside what it answered last. Each function takes the signal apart and calls the one of crate `signal` by value.
#![tactic(auto)]

ghost use Rattle.std.specs.Prelude.{◌≡◌};
ghost use Rattle.answers.specs.Left.{left};
ghost use Rattle.signal.specs.State.{metrics_of};
ghost use Rattle.signal.specs.Calls.{reset_of};
ghost use Rattle.signal.specs.Editions.{new_by, new_port_by, phase_by, duty_by};
ghost use Rattle.port.specs.Fields.{number, reading, places, flag};
ghost use Rattle.port.specs.Fields as Fields;
ghost use Rattle.port.specs.Readings.{place_of, with_place, instantaneous_power, cleared};
ghost use Rattle.held.specs.Held.{beside, after, with_port, with_field};

use generator::Wave;
use port::Port;
use signal::{Answer, Metrics};

// The caller's samples; how the last call on them ended, and the state. A setting of the port is no such call: it can't be refused, and leaves the outcome.
#[derive(Drop)]
pub struct Signal<'a> {
    pub samples: &'a mut [f32],
    pub answer: Answer,
}

impl<'a> Signal<'a> {
    // A signal of a wave: the samples are generated and measured.
    pub fn new(
        wave: Wave,
        amplitude: f32,
        frequency: f32,
        edition: u8,
        samples: &'a mut [f32],
    ) -> Signal<'a>
        ensures { result ≡ beside samples.entry (new_by wave amplitude frequency edition samples.old) }
    {
        let answer = signal::new(wave, amplitude, frequency, edition, &mut *samples);
        Signal { samples, answer }
    }

    // A signal as a port of this voltage and current; the frequency is a reading alone.
    pub fn new_power_port(
        voltage: f32,
        current: f32,
        frequency: Option<f32>,
        edition: u8,
        samples: &'a mut [f32],
    ) -> Signal<'a>
        ensures { result ≡ beside samples.entry (new_port_by voltage current frequency edition samples.old) }
    {
        let answer = signal::new_power_port(voltage, current, frequency, edition, &mut *samples);
        Signal { samples, answer }
    }

    // Another phase, in degrees: the samples are generated and measured again.
    pub fn set_phase(&mut self, phase: f32)
        ensures { self.new ≡ after self.old (phase_by self.old.answer.state phase self.old.samples.now) }
    {
        self.answer = signal::set_phase(self.answer.state, phase, &mut *self.samples);
    }

    // Another duty cycle, held between 0 and 1: the samples are generated and measured again.
    pub fn set_duty_cycle(&mut self, duty_cycle: f32)
        ensures { self.new ≡ after self.old (duty_by self.old.answer.state duty_cycle self.old.samples.now) }
    {
        self.answer = signal::set_duty_cycle(self.answer.state, duty_cycle, &mut *self.samples);
    }

    // Samples and all that is measured of them to zero.
    pub fn reset_waveform(&mut self)
        ensures { self.new ≡ after self.old (reset_of self.old.answer.state self.old.samples.now) }
    {
        self.answer = signal::reset_waveform(self.answer.state, &mut *self.samples);
    }

    // The time figures with their counts, THD, and the number of its edition.
    pub fn get_metrics(&mut self) -> Metrics
        ensures { left result self.new ≡ left (metrics_of self.old.answer.state) self.old }
    {
        signal::get_metrics(self.answer.state)
    }

    // The borrow is handed back, and the signal is over.
    pub fn get_samples(self) -> &'a mut [f32]
        ensures { result ≡ self.entry.samples }
    {
        self.samples
    }

    // ---- The port's readings, as crate `port` has them: the samples, the outcome and the rest of the state stay.

    // The whole port.
    pub fn port(&mut self) -> Port
        ensures { left result self.new ≡ left self.old.answer.state.port self.old }
    {
        self.answer.state.port
    }

    // Another port in its place.
    pub fn set_port(&mut self, port: Port)
        ensures { self.new ≡ with_port self.old port }
    {
        self.answer.state.port = port;
    }

    pub fn voltage(&mut self) -> f32
        ensures { left result self.new ≡ left self.old.answer.state.port.voltage self.old }
    {
        self.answer.state.port.voltage()
    }

    pub fn set_voltage(&mut self, voltage: f32)
        ensures { self.new ≡ with_field self.old Fields.at_voltage (number voltage) }
    {
        self.answer.state.port = self.answer.state.port.set_voltage(voltage);
    }

    pub fn current(&mut self) -> f32
        ensures { left result self.new ≡ left self.old.answer.state.port.current self.old }
    {
        self.answer.state.port.current()
    }

    pub fn set_current(&mut self, current: f32)
        ensures { self.new ≡ with_field self.old Fields.at_current (number current) }
    {
        self.answer.state.port = self.answer.state.port.set_current(current);
    }

    pub fn frequency(&mut self) -> Option<f32>
        ensures { left result self.new ≡ left self.old.answer.state.port.frequency self.old }
    {
        self.answer.state.port.frequency()
    }

    pub fn set_frequency(&mut self, frequency: Option<f32>)
        ensures { self.new ≡ with_field self.old Fields.at_frequency (reading frequency) }
    {
        self.answer.state.port = self.answer.state.port.set_frequency(frequency);
    }

    pub fn phase_angle(&mut self) -> Option<f32>
        ensures { left result self.new ≡ left self.old.answer.state.port.phase_angle self.old }
    {
        self.answer.state.port.phase_angle()
    }

    pub fn set_phase_angle(&mut self, phase_angle: Option<f32>)
        ensures { self.new ≡ with_field self.old Fields.at_phase_angle (reading phase_angle) }
    {
        self.answer.state.port = self.answer.state.port.set_phase_angle(phase_angle);
    }

    pub fn active_power(&mut self) -> f32
        ensures { left result self.new ≡ left self.old.answer.state.port.active_power self.old }
    {
        self.answer.state.port.active_power()
    }

    pub fn set_active_power(&mut self, active_power: f32)
        ensures { self.new ≡ with_field self.old Fields.at_active_power (number active_power) }
    {
        self.answer.state.port = self.answer.state.port.set_active_power(active_power);
    }

    pub fn reactive_power(&mut self) -> Option<f32>
        ensures { left result self.new ≡ left self.old.answer.state.port.reactive_power self.old }
    {
        self.answer.state.port.reactive_power()
    }

    pub fn set_reactive_power(&mut self, reactive_power: Option<f32>)
        ensures { self.new ≡ with_field self.old Fields.at_reactive_power (reading reactive_power) }
    {
        self.answer.state.port = self.answer.state.port.set_reactive_power(reactive_power);
    }

    pub fn apparent_power(&mut self) -> Option<f32>
        ensures { left result self.new ≡ left self.old.answer.state.port.apparent_power self.old }
    {
        self.answer.state.port.apparent_power()
    }

    pub fn set_apparent_power(&mut self, apparent_power: Option<f32>)
        ensures { self.new ≡ with_field self.old Fields.at_apparent_power (reading apparent_power) }
    {
        self.answer.state.port = self.answer.state.port.set_apparent_power(apparent_power);
    }

    pub fn power_factor(&mut self) -> Option<f32>
        ensures { left result self.new ≡ left self.old.answer.state.port.power_factor self.old }
    {
        self.answer.state.port.power_factor()
    }

    pub fn set_power_factor(&mut self, power_factor: Option<f32>)
        ensures { self.new ≡ with_field self.old Fields.at_power_factor (reading power_factor) }
    {
        self.answer.state.port = self.answer.state.port.set_power_factor(power_factor);
    }

    pub fn displacement_pf(&mut self) -> Option<f32>
        ensures { left result self.new ≡ left self.old.answer.state.port.displacement_pf self.old }
    {
        self.answer.state.port.displacement_pf()
    }

    pub fn set_displacement_pf(&mut self, displacement_pf: Option<f32>)
        ensures { self.new ≡ with_field self.old Fields.at_displacement_pf (reading displacement_pf) }
    {
        self.answer.state.port = self.answer.state.port.set_displacement_pf(displacement_pf);
    }

    pub fn energy_imported(&mut self) -> f64
        ensures { left result self.new ≡ left self.old.answer.state.port.energy_imported self.old }
    {
        self.answer.state.port.energy_imported()
    }

    pub fn set_energy_imported(&mut self, energy_imported: f64)
        ensures { self.new ≡ with_field self.old Fields.at_energy_imported (number energy_imported) }
    {
        self.answer.state.port = self.answer.state.port.set_energy_imported(energy_imported);
    }

    pub fn energy_exported(&mut self) -> f64
        ensures { left result self.new ≡ left self.old.answer.state.port.energy_exported self.old }
    {
        self.answer.state.port.energy_exported()
    }

    pub fn set_energy_exported(&mut self, energy_exported: f64)
        ensures { self.new ≡ with_field self.old Fields.at_energy_exported (number energy_exported) }
    {
        self.answer.state.port = self.answer.state.port.set_energy_exported(energy_exported);
    }

    pub fn voltage_thd(&mut self) -> Option<f32>
        ensures { left result self.new ≡ left self.old.answer.state.port.voltage_thd self.old }
    {
        self.answer.state.port.voltage_thd()
    }

    pub fn set_voltage_thd(&mut self, voltage_thd: Option<f32>)
        ensures { self.new ≡ with_field self.old Fields.at_voltage_thd (reading voltage_thd) }
    {
        self.answer.state.port = self.answer.state.port.set_voltage_thd(voltage_thd);
    }

    pub fn current_thd(&mut self) -> Option<f32>
        ensures { left result self.new ≡ left self.old.answer.state.port.current_thd self.old }
    {
        self.answer.state.port.current_thd()
    }

    pub fn set_current_thd(&mut self, current_thd: Option<f32>)
        ensures { self.new ≡ with_field self.old Fields.at_current_thd (reading current_thd) }
    {
        self.answer.state.port = self.answer.state.port.set_current_thd(current_thd);
    }

    pub fn voltage_crest_factor(&mut self) -> Option<f32>
        ensures { left result self.new ≡ left self.old.answer.state.port.voltage_crest_factor self.old }
    {
        self.answer.state.port.voltage_crest_factor()
    }

    pub fn set_voltage_crest_factor(&mut self, voltage_crest_factor: Option<f32>)
        ensures { self.new ≡ with_field self.old Fields.at_voltage_crest_factor (reading voltage_crest_factor) }
    {
        self.answer.state.port = self
            .answer
            .state
            .port
            .set_voltage_crest_factor(voltage_crest_factor);
    }

    pub fn current_crest_factor(&mut self) -> Option<f32>
        ensures { left result self.new ≡ left self.old.answer.state.port.current_crest_factor self.old }
    {
        self.answer.state.port.current_crest_factor()
    }

    pub fn set_current_crest_factor(&mut self, current_crest_factor: Option<f32>)
        ensures { self.new ≡ with_field self.old Fields.at_current_crest_factor (reading current_crest_factor) }
    {
        self.answer.state.port = self
            .answer
            .state
            .port
            .set_current_crest_factor(current_crest_factor);
    }

    // Places 0 to 15; a higher one is absent, and setting it does nothing.
    pub fn voltage_harmonic(&mut self, n: u8) -> Option<f32>
        ensures { left result self.new ≡ left (place_of self.old.answer.state.port.voltage_harmonics n) self.old }
    {
        self.answer.state.port.voltage_harmonic(n)
    }

    pub fn set_voltage_harmonic(&mut self, n: u8, value: Option<f32>)
        ensures { self.new ≡ with_field self.old Fields.at_voltage_harmonics (places (with_place self.old.answer.state.port.voltage_harmonics n value)) }
    {
        self.answer.state.port = self.answer.state.port.set_voltage_harmonic(n, value);
    }

    // Places 0 to 15; a higher one is absent, and setting it does nothing.
    pub fn current_harmonic(&mut self, n: u8) -> Option<f32>
        ensures { left result self.new ≡ left (place_of self.old.answer.state.port.current_harmonics n) self.old }
    {
        self.answer.state.port.current_harmonic(n)
    }

    pub fn set_current_harmonic(&mut self, n: u8, value: Option<f32>)
        ensures { self.new ≡ with_field self.old Fields.at_current_harmonics (places (with_place self.old.answer.state.port.current_harmonics n value)) }
    {
        self.answer.state.port = self.answer.state.port.set_current_harmonic(n, value);
    }

    pub fn efficiency(&mut self) -> Option<f32>
        ensures { left result self.new ≡ left self.old.answer.state.port.efficiency self.old }
    {
        self.answer.state.port.efficiency()
    }

    pub fn set_efficiency(&mut self, efficiency: Option<f32>)
        ensures { self.new ≡ with_field self.old Fields.at_efficiency (reading efficiency) }
    {
        self.answer.state.port = self.answer.state.port.set_efficiency(efficiency);
    }

    pub fn losses(&mut self) -> Option<f32>
        ensures { left result self.new ≡ left self.old.answer.state.port.losses self.old }
    {
        self.answer.state.port.losses()
    }

    pub fn set_losses(&mut self, losses: Option<f32>)
        ensures { self.new ≡ with_field self.old Fields.at_losses (reading losses) }
    {
        self.answer.state.port = self.answer.state.port.set_losses(losses);
    }

    pub fn voltage_min(&mut self) -> f32
        ensures { left result self.new ≡ left self.old.answer.state.port.voltage_min self.old }
    {
        self.answer.state.port.voltage_min()
    }

    pub fn voltage_max(&mut self) -> f32
        ensures { left result self.new ≡ left self.old.answer.state.port.voltage_max self.old }
    {
        self.answer.state.port.voltage_max()
    }

    pub fn current_max(&mut self) -> f32
        ensures { left result self.new ≡ left self.old.answer.state.port.current_max self.old }
    {
        self.answer.state.port.current_max()
    }

    pub fn power_max(&mut self) -> f32
        ensures { left result self.new ≡ left self.old.answer.state.port.power_max self.old }
    {
        self.answer.state.port.power_max()
    }

    // The four limits.
    pub fn set_limits(
        &mut self,
        voltage_min: f32,
        voltage_max: f32,
        current_max: f32,
        power_max: f32,
    )
        ensures { self.new ≡ with_field (with_field (with_field (with_field self.old
            Fields.at_voltage_min (number voltage_min)) Fields.at_voltage_max (number voltage_max))
            Fields.at_current_max (number current_max)) Fields.at_power_max (number power_max) }
    {
        self.answer.state.port = self
            .answer
            .state
            .port
            .set_limits(voltage_min, voltage_max, current_max, power_max);
    }

    pub fn is_enabled(&mut self) -> bool
        ensures { left result self.new ≡ left self.old.answer.state.port.is_enabled self.old }
    {
        self.answer.state.port.is_enabled()
    }

    pub fn is_faulted(&mut self) -> bool
        ensures { left result self.new ≡ left self.old.answer.state.port.is_faulted self.old }
    {
        self.answer.state.port.is_faulted()
    }

    // Both flags.
    pub fn set_state(&mut self, is_enabled: bool, is_faulted: bool)
        ensures { self.new ≡ with_field (with_field self.old Fields.at_is_enabled (flag is_enabled)) Fields.at_is_faulted (flag is_faulted) }
    {
        self.answer.state.port = self.answer.state.port.set_state(is_enabled, is_faulted);
    }

    pub fn temperature(&mut self) -> Option<f32>
        ensures { left result self.new ≡ left self.old.answer.state.port.temperature self.old }
    {
        self.answer.state.port.temperature()
    }

    pub fn set_temperature(&mut self, temperature: Option<f32>)
        ensures { self.new ≡ with_field self.old Fields.at_temperature (reading temperature) }
    {
        self.answer.state.port = self.answer.state.port.set_temperature(temperature);
    }

    pub fn instantaneous_power(&mut self) -> f32
        ensures { left result self.new ≡ left (instantaneous_power self.old.answer.state.port) self.old }
    {
        self.answer.state.port.instantaneous_power()
    }

    // The port as it is at first.
    pub fn reset_power_params(&mut self)
        ensures { self.new ≡ with_port self.old cleared }
    {
        self.answer.state.port = self.answer.state.port.reset_power_params();
    }
}
