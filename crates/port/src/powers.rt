// Power and energy: active, reactive and apparent power, the power factors, energy both ways, efficiency and losses.
ghost use Rattle.std.specs.Prelude.{◌≡◌};
ghost use Rattle.port.specs.Fields.{put, number, reading};
ghost use Rattle.port.specs.Fields as Fields;

use crate::Port;

impl Port {
    // The active power in watts.
    pub fn active_power(self) -> f32
        ensures { result ≡ self.active_power }
    {
        self.active_power
    }

    pub fn set_active_power(mut self, active_power: f32) -> Self
        ensures { result ≡ put self Fields.at_active_power (number active_power) }
    {
        self.active_power = active_power;
        self
    }

    // The reactive power in vars.
    pub fn reactive_power(self) -> Option<f32>
        ensures { result ≡ self.reactive_power }
    {
        self.reactive_power
    }

    pub fn set_reactive_power(mut self, reactive_power: Option<f32>) -> Self
        ensures { result ≡ put self Fields.at_reactive_power (reading reactive_power) }
    {
        self.reactive_power = reactive_power;
        self
    }

    // The apparent power in volt-amps.
    pub fn apparent_power(self) -> Option<f32>
        ensures { result ≡ self.apparent_power }
    {
        self.apparent_power
    }

    pub fn set_apparent_power(mut self, apparent_power: Option<f32>) -> Self
        ensures { result ≡ put self Fields.at_apparent_power (reading apparent_power) }
    {
        self.apparent_power = apparent_power;
        self
    }

    // The true power factor.
    pub fn power_factor(self) -> Option<f32>
        ensures { result ≡ self.power_factor }
    {
        self.power_factor
    }

    pub fn set_power_factor(mut self, power_factor: Option<f32>) -> Self
        ensures { result ≡ put self Fields.at_power_factor (reading power_factor) }
    {
        self.power_factor = power_factor;
        self
    }

    // The displacement power factor.
    pub fn displacement_pf(self) -> Option<f32>
        ensures { result ≡ self.displacement_pf }
    {
        self.displacement_pf
    }

    pub fn set_displacement_pf(mut self, displacement_pf: Option<f32>) -> Self
        ensures { result ≡ put self Fields.at_displacement_pf (reading displacement_pf) }
    {
        self.displacement_pf = displacement_pf;
        self
    }

    // The imported energy in watt-hours.
    pub fn energy_imported(self) -> f64
        ensures { result ≡ self.energy_imported }
    {
        self.energy_imported
    }

    pub fn set_energy_imported(mut self, energy_imported: f64) -> Self
        ensures { result ≡ put self Fields.at_energy_imported (number energy_imported) }
    {
        self.energy_imported = energy_imported;
        self
    }

    // The exported energy in watt-hours.
    pub fn energy_exported(self) -> f64
        ensures { result ≡ self.energy_exported }
    {
        self.energy_exported
    }

    pub fn set_energy_exported(mut self, energy_exported: f64) -> Self
        ensures { result ≡ put self Fields.at_energy_exported (number energy_exported) }
    {
        self.energy_exported = energy_exported;
        self
    }

    // The conversion efficiency in percent.
    pub fn efficiency(self) -> Option<f32>
        ensures { result ≡ self.efficiency }
    {
        self.efficiency
    }

    pub fn set_efficiency(mut self, efficiency: Option<f32>) -> Self
        ensures { result ≡ put self Fields.at_efficiency (reading efficiency) }
    {
        self.efficiency = efficiency;
        self
    }

    // The estimated losses in watts.
    pub fn losses(self) -> Option<f32>
        ensures { result ≡ self.losses }
    {
        self.losses
    }

    pub fn set_losses(mut self, losses: Option<f32>) -> Self
        ensures { result ≡ put self Fields.at_losses (reading losses) }
    {
        self.losses = losses;
        self
    }
}
