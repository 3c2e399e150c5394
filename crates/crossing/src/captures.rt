// What a reading or a writing answers, as it crosses the boundary.
ghost use Rattle.std.specs.Prelude.{◌≡◌};
ghost use Rattle.crossing.specs.CaptureCrossing.{coded_read, coded_written};

use answers::{Refusal, number_of};
use capture::Refused;

// The number of a reading's outcome, the line and the pairs.
#[repr(C)]
#[derive(Clone, Copy)]
pub struct CodedRead {
    pub code: u8,
    pub line: usize,
    pub pairs: usize,
}

// The number of a writing's outcome, and the bytes.
#[repr(C)]
#[derive(Clone, Copy)]
pub struct CodedWritten {
    pub code: u8,
    pub bytes: usize,
}

impl From<Result<usize, Refused>> for CodedRead {
    ghost from_gives = { λ a coded. coded ≡ coded_read a };

    fn from(a: Result<usize, Refused>) -> CodedRead {
        match a {
            Ok(pairs) => CodedRead {
                code: 0,
                line: 0,
                pairs,
            },
            Err(Refused { refusal, line }) => CodedRead {
                code: number_of(refusal),
                line,
                pairs: 0,
            },
        }
    }
}

impl From<Result<usize, Refusal>> for CodedWritten {
    ghost from_gives = { λ a coded. coded ≡ coded_written a };

    fn from(a: Result<usize, Refusal>) -> CodedWritten {
        match a {
            Ok(bytes) => CodedWritten { code: 0, bytes },
            Err(refusal) => CodedWritten {
                code: number_of(refusal),
                bytes: 0,
            },
        }
    }
}
