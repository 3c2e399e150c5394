// The generator: the wave, the amplitude, the phase, the frequency, the duty cycle.
use replaying::said::Said;
use replaying::{read, said};

pub fn call(line: &[u8], out: &mut [f32]) -> Said {
    let wave = read::byte(line, 4).into();
    let amplitude = read::float(line, 5);
    let phase = read::float(line, 6);
    let frequency = read::float(line, 7);
    let duty_cycle = read::float(line, 8);
    said::ended(generator::generate_samples(wave, amplitude, phase, frequency, duty_cycle, out))
}
