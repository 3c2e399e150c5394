// A signal's state crosses as a flat record, a wave in it as its number.
ghost use Rattle.std.specs.Prelude.{◌≡◌};
ghost use Rattle.crossing.specs.SignalCrossing.{state_in, state_out, coded_signal};

use crate::ports::TjPort;
use figures::TimeFigures;
use generator::Shape;
use signal::{Answer, Metrics, State};

#[repr(C)]
#[derive(Clone, Copy)]
pub struct TjSignal {
    pub wave: u8,
    pub edition: u8,
    pub amplitude: f32,
    pub phase: f32,
    pub frequency: f32,
    pub duty_cycle: f32,
    pub port: TjPort,
    pub figures: TimeFigures,
    pub thd: f32,
}

// The number of the call's outcome, and the state.
#[repr(C)]
#[derive(Clone, Copy)]
pub struct CodedSignal {
    pub code: u8,
    pub signal: TjSignal,
}

// The state that a flat record stands for.
impl From<TjSignal> for State {
    ghost from_gives = { λ s state. state ≡ state_in s };

    fn from(s: TjSignal) -> State {
        State {
            shape: Shape {
                wave: s.wave.into(),
                amplitude: s.amplitude,
                phase: s.phase,
                frequency: s.frequency,
                duty_cycle: s.duty_cycle,
            },
            port: s.port.into(),
            metrics: Metrics {
                figures: s.figures,
                thd: s.thd,
                edition: s.edition,
            },
        }
    }
}

// A state as a flat record.
impl From<State> for TjSignal {
    ghost from_gives = { λ s flat. flat ≡ state_out s };

    fn from(s: State) -> TjSignal {
        TjSignal {
            wave: s.shape.wave.into(),
            edition: s.metrics.edition,
            amplitude: s.shape.amplitude,
            phase: s.shape.phase,
            frequency: s.shape.frequency,
            duty_cycle: s.shape.duty_cycle,
            port: s.port.into(),
            figures: s.metrics.figures,
            thd: s.metrics.thd,
        }
    }
}

impl From<Answer> for CodedSignal {
    ghost from_gives = { λ a coded. coded ≡ coded_signal a };

    fn from(a: Answer) -> CodedSignal {
        CodedSignal {
            code: answers::code_of(a.outcome),
            signal: a.state.into(),
        }
    }
}
