// A quotient crosses as its kind and ratio.
ghost use Rattle.std.specs.Prelude.{◌≡◌};
ghost use Rattle.crossing.specs.QualityCrossing.{coded_quotient, coded_sfdr};

use answers::{Refusal, number_of};
use quality::Sfdr;

// The number of the call's outcome, and the case of the quotient as its kind and ratio.
#[repr(C)]
#[derive(Clone, Copy)]
pub struct CodedQuotient {
    pub code: u8,
    pub kind: u8,
    pub ratio: f64,
}

impl From<Result<Option<f64>, Refusal>> for CodedQuotient {
    ghost from_gives = { λ a coded. coded ≡ coded_quotient a };

    fn from(a: Result<Option<f64>, Refusal>) -> CodedQuotient {
        let (code, kind, ratio) = match a {
            Ok(Some(ratio)) => (0, 0, ratio),
            Ok(None) => (0, 2, 0.0),
            Err(refusal) => (number_of(refusal), 0, 0.0),
        };
        CodedQuotient { code, kind, ratio }
    }
}

impl From<Result<Sfdr, Refusal>> for CodedQuotient {
    ghost from_gives = { λ a coded. coded ≡ coded_sfdr a };

    fn from(a: Result<Sfdr, Refusal>) -> CodedQuotient {
        let (code, kind, ratio) = match a {
            Ok(Sfdr::Ratio(ratio)) => (0, 0, std::num::f32_to_f64_with_nan(ratio)),
            Ok(Sfdr::NoSpur) => (0, 1, 0.0),
            Ok(Sfdr::UnusableBin) => (0, 2, 0.0),
            Err(refusal) => (number_of(refusal), 0, 0.0),
        };
        CodedQuotient { code, kind, ratio }
    }
}
