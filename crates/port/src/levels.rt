// What stands at the interface: voltage, current, frequency, phase angle and temperature, and the power at this moment.
ghost use Rattle.std.specs.Prelude.{◌≡◌};
ghost use Rattle.port.specs.Fields.{put, number, reading};
ghost use Rattle.port.specs.Fields as Fields;
ghost use Rattle.port.specs.Readings.{instantaneous_power};

use crate::Port;

impl Port {
    // The interface voltage in volts.
    pub fn voltage(self) -> f32
        ensures { result ≡ self.voltage }
    {
        self.voltage
    }

    pub fn set_voltage(mut self, voltage: f32) -> Self
        ensures { result ≡ put self Fields.at_voltage (number voltage) }
    {
        self.voltage = voltage;
        self
    }

    // The interface current in amps.
    pub fn current(self) -> f32
        ensures { result ≡ self.current }
    {
        self.current
    }

    pub fn set_current(mut self, current: f32) -> Self
        ensures { result ≡ put self Fields.at_current (number current) }
    {
        self.current = current;
        self
    }

    // The interface frequency in hertz; absent for DC.
    pub fn frequency(self) -> Option<f32>
        ensures { result ≡ self.frequency }
    {
        self.frequency
    }

    pub fn set_frequency(mut self, frequency: Option<f32>) -> Self
        ensures { result ≡ put self Fields.at_frequency (reading frequency) }
    {
        self.frequency = frequency;
        self
    }

    // The phase angle between voltage and current in degrees.
    pub fn phase_angle(self) -> Option<f32>
        ensures { result ≡ self.phase_angle }
    {
        self.phase_angle
    }

    pub fn set_phase_angle(mut self, phase_angle: Option<f32>) -> Self
        ensures { result ≡ put self Fields.at_phase_angle (reading phase_angle) }
    {
        self.phase_angle = phase_angle;
        self
    }

    // The interface temperature in degrees Celsius.
    pub fn temperature(self) -> Option<f32>
        ensures { result ≡ self.temperature }
    {
        self.temperature
    }

    pub fn set_temperature(mut self, temperature: Option<f32>) -> Self
        ensures { result ≡ put self Fields.at_temperature (reading temperature) }
    {
        self.temperature = temperature;
        self
    }

    // Voltage times current, in watts.
    pub fn instantaneous_power(self) -> f32
        ensures { result ≡ instantaneous_power self }
    {
        self.voltage * self.current
    }
}
