// A signal by value: made by `new` or `new_power_port` in an edition, then up to three settings, each a number and a value. Every call is on the same samples,
// but where the line says 3: there `new` was on eight samples of its own, so that settings that are refused find a state. Before the settings the state may be
// given another edition, as a caller can.
use generator::Shape;
use port::Port;
use replaying::lists::ROOM;
use replaying::read::behind;
use replaying::said::Said;
use replaying::{read, records};
use signal::{Answer, Metrics, State};

fn made_new(line: &[u8], out: &mut [f32]) -> Answer {
    signal::new(
        read::byte(line, 4).into(),
        read::float(line, 5),
        read::float(line, 6),
        read::byte(line, 8),
        out,
    )
}

fn made_port(line: &[u8], out: &mut [f32]) -> Answer {
    signal::new_power_port(
        read::float(line, 4),
        read::float(line, 5),
        records::reading_at(line, 6),
        read::byte(line, 8),
        out,
    )
}

fn made(line: &[u8], which: u32, out: &mut [f32]) -> Answer {
    match which {
        1 => made_new(line, out),
        2 => made_port(line, out),
        _ => made_new(line, &mut [0.0f32; 8]),
    }
}

// With the edition at the word 9, where that is one byte's.
fn with_edition(line: &[u8], made: Answer) -> Answer {
    let mut a = made;
    if read::word(line, 9) < 256 {
        a.state.metrics.edition = read::byte(line, 9);
    }
    a
}

fn set(line: &[u8], i: usize, earlier: Answer, out: &mut [f32]) -> Answer {
    let x = read::float(line, behind(i, 1));
    match read::word(line, i) {
        1 => signal::set_phase(earlier.state, x, out),
        2 => signal::set_duty_cycle(earlier.state, x, out),
        3 => signal::reset_waveform(earlier.state, out),
        _ => earlier,
    }
}

// The three settings.
fn set_up(line: &[u8], made: Answer, out: &mut [f32]) -> Answer {
    let mut a = with_edition(line, made);
    for i in [10, 12, 14] {
        a = set(line, i, a, out);
    }
    a
}

// ---- what is seen of it

// The number that stands for a reading that is absent.
const ABSENT: f32 = -1.0;

// The figures, the THD and its edition.
pub fn metrics(m: Metrics) -> [f32; 21] {
    let mut xs = [0.0; 21];
    xs[..19].copy_from_slice(&records::figures(m.figures));
    xs[19] = m.thd;
    xs[20] = f32::from(m.edition);
    xs
}

// What of the port these calls set.
fn port(port: Port) -> [f32; 7] {
    [
        port.voltage(),
        port.current(),
        port.active_power(),
        port.voltage_crest_factor().unwrap_or(ABSENT),
        port.voltage_thd().unwrap_or(ABSENT),
        port.power_factor().unwrap_or(ABSENT),
        port.apparent_power().unwrap_or(ABSENT),
    ]
}

// The metrics, the shape and the port.
fn list(state: State) -> [f32; ROOM] {
    let metrics = metrics(signal::get_metrics(state));
    let Shape {
        amplitude,
        phase,
        frequency,
        duty_cycle,
        ..
    } = state.shape;
    let shape = [amplitude, phase, frequency, duty_cycle];
    let port = port(state.port);
    let parts = metrics.iter().chain(&shape).chain(&port);
    let mut list = [0.0; ROOM];
    for (x, part) in list.iter_mut().zip(parts) {
        *x = *part;
    }
    list
}

// The counts are those at the words i and i + 1.
pub fn answered(line: &[u8], i: usize, a: Answer) -> Said {
    let figures = signal::get_metrics(a.state).figures;
    records::counted(
        line,
        i,
        answers::code_of(a.outcome),
        figures,
        &list(a.state),
    )
}

pub fn call(line: &[u8], which: u32, out: &mut [f32]) -> Said {
    answered(line, 16, set_up(line, made(line, which, out), out))
}
