// Capture lines.
ghost use Rattle.std.specs.Prelude.{◌≡◌};
ghost use Rattle.capture.specs.Reading.{read_capture};
ghost use Rattle.writing.specs.Writing.{write_capture};
ghost use Rattle.answers.specs.Left.{left, answered_as};
ghost use Rattle.crossing.specs.CaptureCrossing.{coded_read, coded_written};

use crossing::captures::{CodedRead, CodedWritten};

#[unsafe(no_mangle)]
pub extern "C" fn tj_read_capture(text: &[u8], volts: &mut [i16], amps: &mut [i16]) -> CodedRead
    ensures { left result (volts.new, amps.new) ≡ answered_as coded_read (read_capture text.now volts.old amps.old) }
{
    capture::read_capture(text, volts, amps).into()
}

#[unsafe(no_mangle)]
pub extern "C" fn tj_write_capture(
    volts: &[i16],
    amps: &[i16],
    first: u16,
    text: &mut [u8],
) -> CodedWritten
    ensures { left result text.new ≡ answered_as coded_written (write_capture volts.now amps.now first text.old) }
{
    writing::write_capture(volts, amps, first, text).into()
}
