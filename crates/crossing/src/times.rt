// An answer of `figures` as it crosses the boundary.
ghost use Rattle.std.specs.Prelude.{◌≡◌};
ghost use Rattle.crossing.specs.FiguresCrossing.{coded_figures};

use answers::{Refusal, number_of};
use figures::TimeFigures;

// The number of the call's outcome, and the record.
#[repr(C)]
#[derive(Clone, Copy)]
pub struct CodedFigures {
    pub code: u8,
    pub figures: TimeFigures,
}

impl CodedFigures {
    // Of a refused call, the earlier record that was handed in.
    pub fn new(earlier: TimeFigures, a: Result<TimeFigures, Refusal>) -> CodedFigures
        ensures { result ≡ coded_figures earlier a }
    {
        match a {
            Ok(figures) => CodedFigures { code: 0, figures },
            Err(refusal) => CodedFigures {
                code: number_of(refusal),
                figures: earlier,
            },
        }
    }
}
