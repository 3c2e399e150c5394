// The calls of port readings that do more than read or set a field. A port crosses as a flat record, a reading as a flag and a value.
ghost use Rattle.std.specs.Prelude.{◌≡◌};
ghost use Rattle.port.specs.Fields.{put, places, at_voltage_harmonics, at_current_harmonics};
ghost use Rattle.port.specs.Readings.{place_of, with_place, instantaneous_power, cleared};
ghost use Rattle.crossing.specs.PortCrossing.{reading_in, reading_out, port_in, port_out};

use crossing::ports::TjPort;
use crossing::readings::TjReading;
use port::Port;

#[unsafe(no_mangle)]
pub extern "C" fn tj_instantaneous_power(port: TjPort) -> f32
    ensures { result ≡ instantaneous_power (port_in port) }
{
    Port::from(port).instantaneous_power()
}

#[unsafe(no_mangle)]
pub extern "C" fn tj_reset_power_params(port: TjPort) -> TjPort
    ensures { result ≡ port_out cleared }
{
    Port::from(port).reset_power_params().into()
}

#[unsafe(no_mangle)]
pub extern "C" fn tj_voltage_harmonic(port: TjPort, n: u8) -> TjReading
    ensures { result ≡ reading_out (place_of (port_in port).voltage_harmonics n) }
{
    Port::from(port).voltage_harmonic(n).into()
}

#[unsafe(no_mangle)]
pub extern "C" fn tj_set_voltage_harmonic(port: TjPort, n: u8, value: TjReading) -> TjPort
    ensures { result ≡ port_out (put (port_in port) at_voltage_harmonics (places (with_place (port_in port).voltage_harmonics n (reading_in value)))) }
{
    Port::from(port)
        .set_voltage_harmonic(n, value.into())
        .into()
}

#[unsafe(no_mangle)]
pub extern "C" fn tj_current_harmonic(port: TjPort, n: u8) -> TjReading
    ensures { result ≡ reading_out (place_of (port_in port).current_harmonics n) }
{
    Port::from(port).current_harmonic(n).into()
}

#[unsafe(no_mangle)]
pub extern "C" fn tj_set_current_harmonic(port: TjPort, n: u8, value: TjReading) -> TjPort
    ensures { result ≡ port_out (put (port_in port) at_current_harmonics (places (with_place (port_in port).current_harmonics n (reading_in value)))) }
{
    Port::from(port)
        .set_current_harmonic(n, value.into())
        .into()
}
