// Power.
ghost use Rattle.std.specs.Prelude.{◌≡◌};
ghost use Rattle.power.specs.Power.{answer_of};
ghost use Rattle.crossing.specs.PowerCrossing.{coded_power, CrossedCodes};

use crossing::powers::CodedPower;

#[unsafe(no_mangle)]
pub extern "C" fn tj_compute_power(voltage: &[f32], current: &[f32], sample_rate: f32) -> CodedPower
    ensures { result ≡ coded_power (answer_of voltage.now current.now) }
{
    power::compute_power(voltage, current, sample_rate).into()
}

#[unsafe(no_mangle)]
pub extern "C" fn tj_power_of_codes(volts: &[i16], amps: &[i16]) -> CodedPower
    ensures { CrossedCodes volts.now amps.now result }
{
    code_power::power_of_codes(volts, amps).into()
}
