// What `reporting` makes of an input, on standard output. No contract can say what reaches the system: the gate runs it.
#![tactic(auto)]

ghost use Rattle.std.specs.Prelude.{◌≡◌, ◌<◌, length};
ghost use Rattle.reporting.specs.Report.{longest_input, report_of, report_of_read};

use arrayvec::ArrayString;
use reporting::{LONGEST_INPUT, ROOM_FOR_INPUT, ROOM_FOR_REPORT};
use std::fmt::Write as _;
use std::io;

// The system's text alone: std puts the error's number behind it.
fn reason_of(text: &str) -> &str {
    match text.find(" (os error ") {
        Some(at) => &text[..at],
        None => text,
    }
}

// Says on standard error what failed and why.
pub fn fail<R: Eprint>(rt: &R, what: &str, error: io::Error) {
    let mut text = ArrayString::<128>::new();
    let _ = write!(text, "{error}");
    let reason = reason_of(text.as_str());
    let _ = eprintln!(rt; "{what}: {reason}");
}

// Hands the report of an input to `write`, and answers how many bytes it has. The input is there for the contract: `text` is its whole report.
fn hand_on<R: Print + Eprint>(rt: &R, input: &[u8], text: &[u8]) -> usize
    requires { text.now ≡ report_of input.now }
    ensures { result ≡ length (report_of input.now) }
{
    if let Err(error) = rt.write_all(text) {
        fail(rt, "write", error);
    }
    text.len()
}

// Prints the report of an input; answers how many bytes it has.
pub fn print_report<R: Print + Eprint>(rt: &R, input: &[u8]) -> usize
    ensures { result ≡ length (report_of input.now) }
{
    let mut text = [0u8; ROOM_FOR_REPORT];
    // the room holds any report: never refused
    let n = reporting::report_text(input, &mut text).unwrap_or(0);
    hand_on(rt, input, &text[..n])
}

// What `print_read` does, over a slice: of a longer input the whole buffer is handed on, which is too long as well.
fn print_count<R: Print + Eprint>(rt: &R, buffer: &[u8], count: usize) -> usize
    requires { longest_input < length buffer.now }
    ensures { result ≡ length (report_of_read buffer.now count) }
{
    if LONGEST_INPUT < count {
        return print_report(rt, buffer);
    }
    print_report(rt, &buffer[..count])
}

// Prints the report of what was read: the first `count` bytes of a buffer that holds one byte more than is taken. A count above LONGEST_INPUT is a longer
// input, whatever the buffer holds.
pub fn print_read<R: Print + Eprint>(rt: &R, buffer: &[u8; ROOM_FOR_INPUT], count: usize) -> usize
    ensures { result ≡ length (report_of_read buffer.now count) }
{
    print_count(rt, buffer, count)
}
