// One measured number as it crosses the boundary.
ghost use Rattle.std.specs.Prelude.{◌≡◌};
ghost use Rattle.crossing.specs.Measured.{figure_of};

use answers::{Refusal, number_of};

#[repr(C)]
#[derive(Clone, Copy)]
pub struct Figure {
    pub code: u8,
    pub value: f32,
}

impl From<Result<f32, Refusal>> for Figure {
    ghost from_gives = { λ m figure. figure ≡ figure_of m };

    fn from(m: Result<f32, Refusal>) -> Figure {
        match m {
            Ok(value) => Figure { code: 0, value },
            Err(refusal) => Figure {
                code: number_of(refusal),
                value: 0.0,
            },
        }
    }
}
