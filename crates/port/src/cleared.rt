// The port that a reset gives.
ghost use Rattle.std.specs.Prelude.{◌≡◌};
ghost use Rattle.port.specs.Readings.{cleared};

use crate::Port;

impl Port {
    // Every field back to where it starts, whatever it was.
    pub fn reset_power_params(self) -> Self
        ensures { result ≡ cleared }
    {
        cleared_port()
    }
}

// The port that a reset gives: zeros, readings absent, enabled and not faulted.
pub fn cleared_port() -> Port
    ensures { result ≡ cleared }
{
    Port {
        voltage: 0.0,
        current: 0.0,
        frequency: None,
        phase_angle: None,
        active_power: 0.0,
        reactive_power: None,
        apparent_power: None,
        power_factor: None,
        displacement_pf: None,
        energy_imported: 0.0,
        energy_exported: 0.0,
        voltage_thd: None,
        current_thd: None,
        voltage_crest_factor: None,
        current_crest_factor: None,
        voltage_harmonics: [None; 16],
        current_harmonics: [None; 16],
        efficiency: None,
        losses: None,
        voltage_min: 0.0,
        voltage_max: 0.0,
        current_max: 0.0,
        power_max: 0.0,
        is_enabled: true,
        is_faulted: false,
        temperature: None,
    }
}
