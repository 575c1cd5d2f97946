// Runs a script of examples through the reader, the planner and the player. The script's form is told at its head.
// Each case is written as it stands, then its reply, each line of it behind two spaces.
#![tactic(auto)]

ghost use Rattle.std.specs.Prelude.{◌≡◌, ◌≤◌, IfOk, IfSome, length, take};

use crate::bytes::Bytes;
use crate::read::{Fields, unescape};
use std::io;
use std::io::{Read, Write};

mod bytes;
mod cases;
mod read;
mod records;
mod write;

// The longest script that is read.
const LONGEST: usize = 65536;

// One line of the script: a comment, or a case. A list begins behind its quote, at the line's seventh byte.
fn case<W: Write>(out: &mut W, line: &[u8]) -> io::Result<()> {
    if line.len() < 6 || line[0] == b'#' {
        return Ok(());
    }
    out.write_all(line)?;
    out.write_all(b"\n")?;
    let mut list = Bytes::new();
    let rest = unescape(&line[6..], &mut list);
    match line[3] {
        b'd' => cases::reading(out, list.as_slice()),
        b'n' => cases::planning(out, list.as_slice(), Fields(rest)),
        _ => cases::playing(out, list.as_slice(), Fields(rest)),
    }
}

// All lines of the script.
fn run<W: Write>(out: &mut W, script: &[u8]) -> io::Result<()> {
    for line in script.split(|byte| *byte == b'\n') {
        case(out, line)?;
    }
    Ok(())
}

// Reads until the buffer is full or the input ends. The number of bytes read. (By hand: the library's `read_to_end` takes heap memory, and reads in
// pieces, which lose the rest of a longer packet. `plan` has the same function: no crate below both reads or writes.)
fn read_full<R: Read>(input: &mut R, buffer: &mut [u8]) -> io::Result<usize>
    ensures within { IfOk result (λ n. n ≤ length buffer.new) }
    ensures read { IfOk result (λ n. IfSome (R.remaining input.old)
        (λ bytes. take n buffer.new ≡ take (length buffer.new) bytes)) }
{
    let mut size = 0;
    while size < buffer.len() {
        let n = input.read(&mut buffer[size..])?;
        if n == 0 {
            return Ok(size);
        }
        size += n;
    }
    Ok(size)
}

fn main(rt: HostRuntime) -> io::Result<()> {
    let mut script = [0u8; LONGEST];
    let n = read_full(&mut rt.stdin(), &mut script)?;
    run(&mut rt.stdout(), &script[..n])
}
