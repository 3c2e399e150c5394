// The report program: prints the report of standard input, and nothing of an input that could not be read. Whether it is too long, `print_read` decides.
#![tactic(auto)]

ghost use Rattle.std.specs.Prelude.{◌≤◌, length, IfOk};

use reporting::ROOM_FOR_INPUT;
use std::io;
use std::io::Read;

// Reads until the room is full or the input ends; how many bytes of the room it takes.
fn read_full<F: Read>(input: &mut F, room: &mut [u8]) -> io::Result<usize>
    ensures { IfOk result (λ n. n ≤ length room.new) }
{
    let mut done = 0usize;
    for _ in 0..u64::MAX {
        let n = input.read(&mut room[done..])?;
        if n == 0 {
            break;
        }
        done += n;
    }
    Ok(done)
}

fn main(rt: HostRuntime) {
    let mut input = [0u8; ROOM_FOR_INPUT];
    match read_full(&mut rt.stdin(), &mut input) {
        Ok(n) => {
            printing::print_read(&rt, &input, n);
        }
        Err(error) => printing::fail(&rt, "read", error),
    }
}
