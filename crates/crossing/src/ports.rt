// A port crosses as a flat record.
ghost use Rattle.std.specs.Prelude.{◌≡◌, map};
ghost use Rattle.crossing.specs.PortCrossing.{reading_in, reading_out, port_in, port_out};

use crate::readings::{ABSENT, TjReading};
use port::Port;

#[repr(C)]
#[derive(Clone, Copy)]
pub struct TjPort {
    pub voltage: f32,
    pub current: f32,
    pub frequency: TjReading,
    pub phase_angle: TjReading,
    pub active_power: f32,
    pub reactive_power: TjReading,
    pub apparent_power: TjReading,
    pub power_factor: TjReading,
    pub displacement_pf: TjReading,
    pub energy_imported: f64,
    pub energy_exported: f64,
    pub voltage_thd: TjReading,
    pub current_thd: TjReading,
    pub voltage_crest_factor: TjReading,
    pub current_crest_factor: TjReading,
    pub voltage_harmonics: [TjReading; 16],
    pub current_harmonics: [TjReading; 16],
    pub efficiency: TjReading,
    pub losses: TjReading,
    pub voltage_min: f32,
    pub voltage_max: f32,
    pub current_max: f32,
    pub power_max: f32,
    pub is_enabled: bool,
    pub is_faulted: bool,
    pub temperature: TjReading,
}

// By index: `map` puts each place down and reads it again, which takes twice as long.
fn places_in(harmonics: [TjReading; 16]) -> [Option<f32>; 16]
    ensures { result ≡ map reading_in harmonics }
{
    let mut places = [None; 16];
    for i in 0..16 {
        places[i] = harmonics[i].into();
    }
    places
}

// By index, as `places_in`.
fn places_out(harmonics: [Option<f32>; 16]) -> [TjReading; 16]
    ensures { result ≡ map reading_out harmonics }
{
    let mut places = [ABSENT; 16];
    for i in 0..16 {
        places[i] = harmonics[i].into();
    }
    places
}

// The port that a flat record stands for, field by field.
impl From<TjPort> for Port {
    ghost from_gives = { λ p port. port ≡ port_in p };

    fn from(p: TjPort) -> Port {
        Port {
            voltage: p.voltage,
            current: p.current,
            frequency: p.frequency.into(),
            phase_angle: p.phase_angle.into(),
            active_power: p.active_power,
            reactive_power: p.reactive_power.into(),
            apparent_power: p.apparent_power.into(),
            power_factor: p.power_factor.into(),
            displacement_pf: p.displacement_pf.into(),
            energy_imported: p.energy_imported,
            energy_exported: p.energy_exported,
            voltage_thd: p.voltage_thd.into(),
            current_thd: p.current_thd.into(),
            voltage_crest_factor: p.voltage_crest_factor.into(),
            current_crest_factor: p.current_crest_factor.into(),
            voltage_harmonics: places_in(p.voltage_harmonics),
            current_harmonics: places_in(p.current_harmonics),
            efficiency: p.efficiency.into(),
            losses: p.losses.into(),
            voltage_min: p.voltage_min,
            voltage_max: p.voltage_max,
            current_max: p.current_max,
            power_max: p.power_max,
            is_enabled: p.is_enabled,
            is_faulted: p.is_faulted,
            temperature: p.temperature.into(),
        }
    }
}

// A port as a flat record.
impl From<Port> for TjPort {
    ghost from_gives = { λ p flat. flat ≡ port_out p };

    fn from(p: Port) -> TjPort {
        TjPort {
            voltage: p.voltage,
            current: p.current,
            frequency: p.frequency.into(),
            phase_angle: p.phase_angle.into(),
            active_power: p.active_power,
            reactive_power: p.reactive_power.into(),
            apparent_power: p.apparent_power.into(),
            power_factor: p.power_factor.into(),
            displacement_pf: p.displacement_pf.into(),
            energy_imported: p.energy_imported,
            energy_exported: p.energy_exported,
            voltage_thd: p.voltage_thd.into(),
            current_thd: p.current_thd.into(),
            voltage_crest_factor: p.voltage_crest_factor.into(),
            current_crest_factor: p.current_crest_factor.into(),
            voltage_harmonics: places_out(p.voltage_harmonics),
            current_harmonics: places_out(p.current_harmonics),
            efficiency: p.efficiency.into(),
            losses: p.losses.into(),
            voltage_min: p.voltage_min,
            voltage_max: p.voltage_max,
            current_max: p.current_max,
            power_max: p.power_max,
            is_enabled: p.is_enabled,
            is_faulted: p.is_faulted,
            temperature: p.temperature.into(),
        }
    }
}
