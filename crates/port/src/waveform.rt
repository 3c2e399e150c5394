// The form of voltage and current: THD, crest factors and harmonics.
ghost use Rattle.std.specs.Prelude.{◌≡◌};
ghost use Rattle.port.specs.Fields.{put, reading, places};
ghost use Rattle.port.specs.Fields as Fields;
ghost use Rattle.port.specs.Readings.{place_of, with_place};

use crate::Port;

impl Port {
    // The voltage THD in percent.
    pub fn voltage_thd(self) -> Option<f32>
        ensures { result ≡ self.voltage_thd }
    {
        self.voltage_thd
    }

    pub fn set_voltage_thd(mut self, voltage_thd: Option<f32>) -> Self
        ensures { result ≡ put self Fields.at_voltage_thd (reading voltage_thd) }
    {
        self.voltage_thd = voltage_thd;
        self
    }

    // The current THD in percent.
    pub fn current_thd(self) -> Option<f32>
        ensures { result ≡ self.current_thd }
    {
        self.current_thd
    }

    pub fn set_current_thd(mut self, current_thd: Option<f32>) -> Self
        ensures { result ≡ put self Fields.at_current_thd (reading current_thd) }
    {
        self.current_thd = current_thd;
        self
    }

    // The voltage crest factor.
    pub fn voltage_crest_factor(self) -> Option<f32>
        ensures { result ≡ self.voltage_crest_factor }
    {
        self.voltage_crest_factor
    }

    pub fn set_voltage_crest_factor(mut self, voltage_crest_factor: Option<f32>) -> Self
        ensures { result ≡ put self Fields.at_voltage_crest_factor (reading voltage_crest_factor) }
    {
        self.voltage_crest_factor = voltage_crest_factor;
        self
    }

    // The current crest factor.
    pub fn current_crest_factor(self) -> Option<f32>
        ensures { result ≡ self.current_crest_factor }
    {
        self.current_crest_factor
    }

    pub fn set_current_crest_factor(mut self, current_crest_factor: Option<f32>) -> Self
        ensures { result ≡ put self Fields.at_current_crest_factor (reading current_crest_factor) }
    {
        self.current_crest_factor = current_crest_factor;
        self
    }

    // The voltage harmonic at place n, in percent of the fundamental; absent for a place of 16 or above.
    pub fn voltage_harmonic(self, n: u8) -> Option<f32>
        ensures { result ≡ place_of self.voltage_harmonics n }
    {
        place_of(self.voltage_harmonics, n)
    }

    // A place of 16 or above changes nothing.
    pub fn set_voltage_harmonic(mut self, n: u8, value: Option<f32>) -> Self
        ensures { result ≡ put self Fields.at_voltage_harmonics (places (with_place self.voltage_harmonics n value)) }
    {
        self.voltage_harmonics = with_place(self.voltage_harmonics, n, value);
        self
    }

    // The current harmonic at place n, in percent of the fundamental; absent for a place of 16 or above.
    pub fn current_harmonic(self, n: u8) -> Option<f32>
        ensures { result ≡ place_of self.current_harmonics n }
    {
        place_of(self.current_harmonics, n)
    }

    // A place of 16 or above changes nothing.
    pub fn set_current_harmonic(mut self, n: u8, value: Option<f32>) -> Self
        ensures { result ≡ put self Fields.at_current_harmonics (places (with_place self.current_harmonics n value)) }
    {
        self.current_harmonics = with_place(self.current_harmonics, n, value);
        self
    }
}

// The reading at a place; absent for a place of 16 or above.
fn place_of(harmonics: [Option<f32>; 16], n: u8) -> Option<f32>
    ensures { result ≡ place_of harmonics n }
{
    if 16 <= n {
        return None;
    }
    harmonics[n as usize]
}

// The readings with a value at a place; unchanged for a place of 16 or above.
fn with_place(mut harmonics: [Option<f32>; 16], n: u8, value: Option<f32>) -> [Option<f32>; 16]
    ensures { result ≡ with_place harmonics n value }
{
    if n < 16 {
        harmonics[n as usize] = value;
    }
    harmonics
}
