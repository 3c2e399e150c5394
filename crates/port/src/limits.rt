// The limits of the interface, and whether it is enabled or faulted.
ghost use Rattle.std.specs.Prelude.{◌≡◌, [], ◌∷◌};
ghost use Rattle.port.specs.Fields.{puts, set_to, number, flag};
ghost use Rattle.port.specs.Fields as Fields;

use crate::Port;

impl Port {
    // The least supported voltage in volts.
    pub fn voltage_min(self) -> f32
        ensures { result ≡ self.voltage_min }
    {
        self.voltage_min
    }

    // The greatest supported voltage in volts.
    pub fn voltage_max(self) -> f32
        ensures { result ≡ self.voltage_max }
    {
        self.voltage_max
    }

    // The greatest supported current in amps.
    pub fn current_max(self) -> f32
        ensures { result ≡ self.current_max }
    {
        self.current_max
    }

    // The greatest supported power in watts.
    pub fn power_max(self) -> f32
        ensures { result ≡ self.power_max }
    {
        self.power_max
    }

    // The four limits at once.
    pub fn set_limits(
        mut self,
        voltage_min: f32,
        voltage_max: f32,
        current_max: f32,
        power_max: f32,
    ) -> Self
        ensures { result ≡ puts self (set_to Fields.at_voltage_min (number voltage_min) ∷ set_to Fields.at_voltage_max (number voltage_max)
            ∷ set_to Fields.at_current_max (number current_max) ∷ set_to Fields.at_power_max (number power_max) ∷ []) }
    {
        self.voltage_min = voltage_min;
        self.voltage_max = voltage_max;
        self.current_max = current_max;
        self.power_max = power_max;
        self
    }

    // Whether the interface is enabled.
    pub fn is_enabled(self) -> bool
        ensures { result ≡ self.is_enabled }
    {
        self.is_enabled
    }

    // Whether the interface is faulted.
    pub fn is_faulted(self) -> bool
        ensures { result ≡ self.is_faulted }
    {
        self.is_faulted
    }

    // Both flags at once.
    pub fn set_state(mut self, is_enabled: bool, is_faulted: bool) -> Self
        ensures { result ≡ puts self (set_to Fields.at_is_enabled (flag is_enabled) ∷ set_to Fields.at_is_faulted (flag is_faulted) ∷ []) }
    {
        self.is_enabled = is_enabled;
        self.is_faulted = is_faulted;
        self
    }
}
