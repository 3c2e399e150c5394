// Port readings: from a cleared port six settings, each a number and four words for its arguments, and then one reading.
use port::Port;
use replaying::read::behind;
use replaying::records::reading_at;
use replaying::said::Said;
use replaying::{read, said};

fn flag_at(line: &[u8], i: usize) -> bool {
    read::word(line, i) != 0
}

// ---- the settings

// The setting at word i.
fn set(line: &[u8], i: usize, port: Port) -> Port {
    let at = behind(i, 1);
    let r = reading_at(line, at);
    let n = read::byte(line, behind(i, 3));
    match read::word(line, i) {
        1 => port.set_voltage(read::float(line, at)),
        2 => port.set_current(read::float(line, at)),
        3 => port.set_frequency(r),
        4 => port.set_phase_angle(r),
        5 => port.set_active_power(read::float(line, at)),
        6 => port.set_reactive_power(r),
        7 => port.set_apparent_power(r),
        8 => port.set_power_factor(r),
        9 => port.set_displacement_pf(r),
        10 => port.set_energy_imported(read::double(line, at)),
        11 => port.set_energy_exported(read::double(line, at)),
        12 => port.set_voltage_thd(r),
        13 => port.set_current_thd(r),
        14 => port.set_voltage_crest_factor(r),
        15 => port.set_current_crest_factor(r),
        16 => port.set_voltage_harmonic(n, r),
        17 => port.set_current_harmonic(n, r),
        18 => port.set_efficiency(r),
        19 => port.set_losses(r),
        20 => set_limits(line, at, port),
        21 => port.set_state(flag_at(line, at), flag_at(line, behind(i, 2))),
        22 => port.set_temperature(r),
        23 => port.reset_power_params(),
        _ => port,
    }
}

fn set_limits(line: &[u8], i: usize, port: Port) -> Port {
    port.set_limits(
        read::float(line, i),
        read::float(line, behind(i, 1)),
        read::float(line, behind(i, 2)),
        read::float(line, behind(i, 3)),
    )
}

// ---- the readings

fn flag(b: bool) -> Said {
    said::float(f32::from(b))
}

// A reading as two floats: 1 and the number, or 0 and 0.
fn reading(r: Option<f32>) -> Said {
    match r {
        Some(x) => present(x),
        None => said::code(0),
    }
}

fn present(x: f32) -> Said {
    said::floats(&[1.0, x])
}

fn get(port: Port, which: u32, n: u8) -> Said {
    match which {
        1 => said::float(port.voltage()),
        2 => said::float(port.current()),
        5 => said::float(port.active_power()),
        10 => said::double(port.energy_imported()),
        11 => said::double(port.energy_exported()),
        20 => said::float(port.voltage_min()),
        21 => flag(port.is_enabled()),
        23 => said::float(port.voltage_max()),
        24 => said::float(port.current_max()),
        25 => said::float(port.power_max()),
        26 => flag(port.is_faulted()),
        27 => said::float(port.instantaneous_power()),
        _ => reading(get_reading(port, which, n)),
    }
}

fn get_reading(port: Port, which: u32, n: u8) -> Option<f32> {
    match which {
        3 => port.frequency(),
        4 => port.phase_angle(),
        6 => port.reactive_power(),
        7 => port.apparent_power(),
        8 => port.power_factor(),
        9 => port.displacement_pf(),
        12 => port.voltage_thd(),
        13 => port.current_thd(),
        14 => port.voltage_crest_factor(),
        15 => port.current_crest_factor(),
        16 => port.voltage_harmonic(n),
        17 => port.current_harmonic(n),
        18 => port.efficiency(),
        19 => port.losses(),
        22 => port.temperature(),
        _ => None,
    }
}

// ---- the case

pub fn call(line: &[u8], which: u32) -> Said {
    let port = (0..6).fold(port::cleared_port(), |port, k| set(line, 5 + 5 * k, port));
    get(port, which, read::byte(line, 4))
}
