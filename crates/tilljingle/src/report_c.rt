// The report.
ghost use Rattle.std.specs.Prelude.{◌≡◌};
ghost use Rattle.reporting.specs.Report.{report_text};
ghost use Rattle.answers.specs.Left.{left, answered_as};
ghost use Rattle.crossing.specs.CaptureCrossing.{coded_written};

use crossing::captures::CodedWritten;

#[unsafe(no_mangle)]
pub extern "C" fn tj_report_text(input: &[u8], text: &mut [u8]) -> CodedWritten
    ensures { left result text.new ≡ answered_as coded_written (report_text input.now text.old) }
{
    reporting::report_text(input, text).into()
}
