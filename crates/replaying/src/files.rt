// The files of cases, the lines in them, and the count.
ghost use Rattle.std.specs.Prelude.{◌≡◌, ◌<◌, ◌≤◌, length, take};

use crate::read;
use std::io::Read;
use std::rt::Files;
use std::{fs, io};

// The most bytes of a file.
const LARGEST: usize = 262144;

#[derive(Clone, Copy, Default)]
struct Tally {
    cases: u64,
    differ: u64,
}

impl Tally {
    // One more case.
    fn count(&mut self, agrees: bool) {
        self.cases = self.cases.wrapping_add(1);
        self.differ = self.differ.wrapping_add(u64::from(!agrees));
    }
}

// Tells what could not be read and why.
fn fail<R: Eprint>(rt: &R, name: &str, error: io::Error) {
    let _ = eprintln!(rt; "{name}: {error}");
}

// Reads a file until the room is full, the file ends or a read fails; how many bytes of the room it takes.
fn read_full<R: Files + Eprint>(rt: &R, name: &str, file: R::File, room: &mut [u8]) -> usize
    ensures within { result ≤ length room.new }
    ensures first { result ≡ length (take result room.new) }
{
    let mut file = file;
    let mut done = 0usize;
    for _ in 0..u64::MAX {
        match file.read(&mut room[done..]) {
            Ok(0) => break,
            Ok(n) => done += n,
            Err(error) => {
                fail(rt, name, error);
                break;
            }
        }
    }
    done
}

// Reads a file; how many bytes of the room it takes.
pub fn load<R: Files + Eprint>(rt: &R, name: &str, room: &mut [u8]) -> usize
    ensures within { result ≤ length room.new }
    ensures first { result ≡ length (take result room.new) }
{
    match fs::open(rt, name) {
        Ok(file) => read_full(rt, name, file, room),
        Err(error) => {
            fail(rt, name, error);
            0
        }
    }
}

// How many bytes the first line of these has, as its first word says.
fn line_size(rest: &[u8]) -> usize
    ensures { 0 < result }
{
    9 * read::size(rest, 0).max(1)
}

// Counts the cases of a file, read into this room.
fn count_file<R: Files + Eprint, A: Fn(&[u8]) -> bool>(
    rt: &R,
    name: &str,
    room: &mut [u8],
    agrees: &A,
    tally: &mut Tally,
)
    requires { A.IsAlwaysCallable agrees.now }
{
    let n = load(rt, name, room);
    let mut rest = &room[..n];
    // no `for`: each line says where the next begins
    while !rest.is_empty() {
        let (line, behind) = rest.split_at(line_size(rest).min(rest.len()));
        tally.count(agrees(line));
        rest = behind;
    }
}

fn print_line<R: Print>(rt: &R, t: Tally, cases: &str) -> io::Result<()> {
    println!(rt; "{}{cases}{} differences", t.cases, t.differ)
}

// Asks of each case of these files, and of each in `wrong`, whether the library agrees, and prints how many cases there are and how many answers differ.
pub fn replay<R: Files + Print + Eprint, A: Fn(&[u8]) -> bool>(
    rt: &R,
    names: &[&str],
    agrees: A,
) -> io::Result<()>
    requires { A.IsAlwaysCallable agrees }
{
    let mut room = [0u8; LARGEST];
    let mut right = Tally::default();
    for name in names {
        count_file(rt, name, &mut room, &agrees, &mut right);
    }
    let mut wrong = Tally::default();
    count_file(rt, "wrong", &mut room, &agrees, &mut wrong);
    print_line(rt, right, " cases, ")?;
    print_line(rt, wrong, " wrong cases, ")
}
