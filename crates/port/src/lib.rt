// The readings of an electrical port, by value: each setting takes the port and gives it back.
#![tactic(auto)]

mod cleared;
mod levels;
mod limits;
mod powers;
mod waveform;

pub use cleared::cleared_port;

// A reading is a number or absent. The fields have the Rust's names and order; its `port_frequency` is `frequency` here.
#[derive(Clone, Copy, Drop)]
pub struct Port {
    pub voltage: f32,
    pub current: f32,
    pub frequency: Option<f32>,
    pub phase_angle: Option<f32>,
    pub active_power: f32,
    pub reactive_power: Option<f32>,
    pub apparent_power: Option<f32>,
    pub power_factor: Option<f32>,
    pub displacement_pf: Option<f32>,
    pub energy_imported: f64,
    pub energy_exported: f64,
    pub voltage_thd: Option<f32>,
    pub current_thd: Option<f32>,
    pub voltage_crest_factor: Option<f32>,
    pub current_crest_factor: Option<f32>,
    pub voltage_harmonics: [Option<f32>; 16],
    pub current_harmonics: [Option<f32>; 16],
    pub efficiency: Option<f32>,
    pub losses: Option<f32>,
    pub voltage_min: f32,
    pub voltage_max: f32,
    pub current_max: f32,
    pub power_max: f32,
    pub is_enabled: bool,
    pub is_faulted: bool,
    pub temperature: Option<f32>,
}
