// The spectrum, and the same with a scratch. Behind the scratch's length a line has what stands in it afterwards, as f64, or, for one of up to 4,096 places,
// the sum of all 4,096.
use replaying::lists::{self, ROOM};
use replaying::said::Said;
use replaying::{made, read, said};

// Whether the f64 from word i on stand in the first n places.
fn same_sines(line: &[u8], i: usize, n: usize, sines: &[f64]) -> bool {
    let Some(sines) = sines.get(..n) else {
        return false;
    };
    let mut sines = sines.iter().enumerate();
    sines.all(|(k, x)| lists::same_number(read::double(line, read::behind(i, 2 * k)), *x))
}

// Before, 0.75 stands in each place: no sine of a list that fits.
fn with_scratch(line: &[u8], a: &[f32], out: &mut [f32]) -> Said {
    let mut scratch = [0.75; ROOM];
    let n = read::size(line, 4);
    let part = lists::first_mut(&mut scratch, n);
    let outcome = spectrum::dft_magnitude_spectrum_in(a, part, out);
    said::where_right(same_sines(line, 5, n, &scratch), said::ended(outcome))
}

fn with_long_scratch(line: &[u8], a: &[f32], out: &mut [f32]) -> Said {
    let mut scratch = [0.75; 4096];
    let part = lists::first_mut(&mut scratch, read::size(line, 4));
    let outcome = spectrum::dft_magnitude_spectrum_in(a, part, out);
    let right = made::sum_of_doubles(&scratch) == read::word(line, 5);
    said::where_right(right, said::ended(outcome))
}

pub fn call(line: &[u8], which: u32, a: &[f32], out: &mut [f32]) -> Said {
    match which {
        1 => said::ended(spectrum::dft_magnitude_spectrum(a, out)),
        2 => with_scratch(line, a, out),
        3 => with_long_scratch(line, a, out),
        _ => said::nothing(),
    }
}
