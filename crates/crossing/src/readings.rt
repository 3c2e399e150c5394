// A reading crosses as a flag and a value.
ghost use Rattle.std.specs.Prelude.{◌≡◌};
ghost use Rattle.crossing.specs.PortCrossing.{reading_in, reading_out};

#[repr(C)]
#[derive(Clone, Copy)]
pub struct TjReading {
    pub present: bool,
    pub value: f32,
}

// An absent reading has the value 0.
pub const ABSENT: TjReading = TjReading {
    present: false,
    value: 0.0,
};

impl From<TjReading> for Option<f32> {
    ghost from_gives = { λ r reading. reading ≡ reading_in r };

    fn from(r: TjReading) -> Option<f32> {
        if r.present { Some(r.value) } else { None }
    }
}

impl From<Option<f32>> for TjReading {
    ghost from_gives = { λ reading r. r ≡ reading_out reading };

    fn from(reading: Option<f32>) -> TjReading {
        match reading {
            Some(value) => TjReading {
                present: true,
                value,
            },
            None => ABSENT,
        }
    }
}
