// The sequences on a signal that keeps its samples: three make it of a wave, an amplitude and a frequency, and one of a port's readings;
// then comes the edition.
use crate::of_signal;
use figures::ZERO_FIGURES;
use replaying::said::Said;
use replaying::{read, records, said};

fn shaped(line: &[u8], out: &mut [f32]) -> Said {
    let a = sequences::shaped(
        read::byte(line, 4).into(),
        read::float(line, 5),
        read::float(line, 6),
        read::byte(line, 7),
        read::float(line, 8),
        read::float(line, 9),
        out,
    );
    of_signal::answered(line, 10, a)
}

fn emptied(line: &[u8], out: &mut [f32]) -> Said {
    let a = sequences::emptied(
        read::byte(line, 4).into(),
        read::float(line, 5),
        read::float(line, 6),
        read::byte(line, 7),
        read::float(line, 8),
        out,
    );
    of_signal::answered(line, 9, a)
}

fn measured(line: &[u8], out: &mut [f32]) -> Said {
    let answer = sequences::measured(
        read::byte(line, 4).into(),
        read::float(line, 5),
        read::float(line, 6),
        read::byte(line, 7),
        read::float(line, 8),
        out,
    );
    match answer {
        Ok(metrics) => records::counted(line, 9, 0, metrics.figures, &of_signal::metrics(metrics)),
        Err(refusal) => {
            records::counted(line, 9, answers::number_of(refusal), ZERO_FIGURES, &[])
        }
    }
}

fn powered(line: &[u8], out: &mut [f32]) -> Said {
    said::measured(sequences::powered(
        read::float(line, 4),
        read::float(line, 5),
        records::reading_at(line, 6),
        read::byte(line, 8),
        read::float(line, 9),
        out,
    ))
}

pub fn call(line: &[u8], which: u32, out: &mut [f32]) -> Said {
    match which {
        1 => shaped(line, out),
        2 => emptied(line, out),
        3 => measured(line, out),
        _ => powered(line, out),
    }
}
