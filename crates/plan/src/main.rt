// Reads a task list from standard input, writes the plan to standard output, and what is wrong with a refused list to standard error.
#![tactic(auto)]

ghost use Rattle.std.specs.Prelude.{◌≡◌, ◌≤◌, IfOk, IfSome, OnOk, length, take};
ghost use Rattle.std.specs.Io.KnownBytes.{Appends};
ghost use Rattle.report.specs.Help.{explanation};
ghost use Rattle.plan.specs.Output.{TellsPlan};

use std::io;
use std::io::{Read, Write};

// Reads until the buffer is full or the input ends. The number of bytes read. (By hand, since the library's `read_to_end` takes heap memory.)
fn read_full<R: Read>(input: &mut R, buffer: &mut [u8]) -> io::Result<usize>
    ensures within { IfOk result (λ n. n ≤ length buffer.new) }
    ensures read { IfOk result (λ n. IfSome (R.remaining input.old)
        (λ bytes. take n buffer.new ≡ take (length buffer.new) bytes)) }
{
    let mut size = 0;
    while size < buffer.len() {
        let n = input.read(&mut buffer[size..])?;
        if n == 0 {
            return Ok(size);
        }
        size += n;
    }
    Ok(size)
}

// The plan for a list.
fn write_plan<W: Write>(list: &[u8], out: &mut W) -> io::Result<()>
    ensures { OnOk result (TellsPlan list.now (W.contents out.old) (W.contents out.new)) }
{
    let mut table = [0u8; report::TABLE];
    let mut area = [0u16; 24000];
    let mut text = [0u8; report::OUT];
    let size = report::report(list, &mut table, &mut area, &mut text);
    out.write_all(&text[..size])
}

// What is wrong with a list, if it is refused.
fn write_explanation<W: Write>(list: &[u8], out: &mut W) -> io::Result<()>
    requires { length list.now ≤ 4097 }
    ensures { OnOk result (Appends (W.contents out.old) (W.contents out.new) (explanation list.now)) }
{
    let mut text = [0u8; report::OUT];
    let size = report::explain(list, &mut text);
    out.write_all(&text[..size])
}

// Reads a list, and writes the plan and what is wrong with the list.
fn run<R: Read, O: Write, E: Write>(input: &mut R, out: &mut O, err: &mut E) -> io::Result<()>
    ensures plan { OnOk result (IfSome (R.remaining input.old)
        (λ list. TellsPlan list (O.contents out.old) (O.contents out.new))) }
    ensures said { OnOk result (IfSome (R.remaining input.old)
        (λ list. Appends (E.contents err.old) (E.contents err.new) (explanation list))) }
{
    // One byte more than a list may have, so that a longer list is refused.
    let mut list = [0u8; 4097];
    let n = read_full(input, &mut list)?;
    write_plan(&list[..n], out)?;
    write_explanation(&list[..n], err)
}

fn main(rt: HostRuntime) -> io::Result<()> {
    run(&mut rt.stdin(), &mut rt.stdout(), &mut rt.stderr())
}
