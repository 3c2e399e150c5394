// How every call of the library ends, and the longest slice that is read. A public call that can be refused answers a Result, or has one beside the state that it leaves.
#![tactic(auto)]

// Why a call is refused: the table of numbers a call can return, by name, but for its first row, `done`. `number_of` and `specs/Numbers.antt` give the numbers.
#[derive(Clone, Copy, Debug, PartialEq, Eq)]
pub enum Refusal {
    LengthsDiffer,
    OutputShort,
    TooLong,
    OffGrid,
    WrongForm,
    WrongSum,
    WrongSequence,
    BinOutside,
    UnknownEdition,
    NoSuchRegister,
    RegisterFull,
    NotSuchFile,
    OtherLengths,
}

// The longest slice of samples, codes or magnitudes that is read or filled, and the most pairs of a capture.
pub const LONGEST: usize = 65536;

ghost use Rattle.std.specs.Prelude.{◌≡◌};
ghost use Rattle.answers.specs.Numbers.{number_of};

// The number of a refusal.
pub fn number_of(refusal: Refusal) -> u8
    ensures { result ≡ number_of (Err refusal) }
{
    match refusal {
        Refusal::LengthsDiffer => 1,
        Refusal::OutputShort => 2,
        Refusal::TooLong => 3,
        Refusal::OffGrid => 4,
        Refusal::WrongForm => 5,
        Refusal::WrongSum => 6,
        Refusal::WrongSequence => 7,
        Refusal::BinOutside => 8,
        Refusal::UnknownEdition => 9,
        Refusal::NoSuchRegister => 10,
        Refusal::RegisterFull => 11,
        Refusal::NotSuchFile => 12,
        Refusal::OtherLengths => 13,
    }
}

// The number of how a call ended: 0 where it was done.
pub fn code_of(outcome: Result<(), Refusal>) -> u8
    ensures { result ≡ number_of outcome }
{
    match outcome {
        Ok(()) => 0,
        Err(refusal) => number_of(refusal),
    }
}
