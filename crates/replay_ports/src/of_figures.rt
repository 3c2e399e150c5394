// The time record: 19 figures and two counts.
use crossing::times::CodedFigures;
use figures::TimeFigures;
use replaying::said::Said;
use replaying::{read, records};

// The record from word 7 on.
fn record(line: &[u8]) -> TimeFigures {
    TimeFigures {
        peak_to_peak: read::float(line, 7),
        max: read::float(line, 8),
        min: read::float(line, 9),
        positive_peak: read::float(line, 10),
        negative_peak: read::float(line, 11),
        average: read::float(line, 12),
        dc_rms: read::float(line, 13),
        ac_rms: read::float(line, 14),
        duty_cycle_pos: read::float(line, 15),
        duty_cycle_neg: read::float(line, 16),
        rise_time: read::float(line, 17),
        fall_time: read::float(line, 18),
        crest_factor: read::float(line, 19),
        frequency: read::float(line, 20),
        period: read::float(line, 21),
        form_factor: read::float(line, 22),
        overshoot: read::float(line, 23),
        undershoot: read::float(line, 24),
        slew_rate: read::float(line, 25),
        not_numbers: read::word(line, 26),
        infinite: read::word(line, 27),
    }
}

// The wave, the amplitude, the frequency, the earlier record; the counts answered.
pub fn call(line: &[u8], a: &[f32]) -> Said {
    let earlier = record(line);
    let answer = figures::calculate_time_figures(
        read::byte(line, 4).into(),
        read::float(line, 5),
        read::float(line, 6),
        earlier,
        a,
    );
    let CodedFigures { code, figures } = CodedFigures::new(earlier, answer);
    records::counted(line, 28, code, figures, &records::figures(figures))
}
