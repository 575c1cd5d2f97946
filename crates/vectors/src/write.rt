// What is written of bytes, sets, tables and faults.
use player::Cause;
use std::fmt;
use std::fmt::{Display, Formatter};
use tasks::{IDLE, Task, TaskSet};

// A lent table's bytes, a number that no reply holds.
pub const NO_SLOT: u8 = 238;

// A byte as the script writes it.
#[derive(Drop)]
struct Byte(u8);

impl Display for Byte {
    fn fmt<W: fmt::Write>(&self, f: &mut Formatter<W>) -> fmt::Result {
        let byte = self.0;
        match byte {
            b'\\' => f.write_str("\\\\"),
            b' '..=b'~' if byte != b'"' => write!(f, "{}", char::from(byte)),
            _ => write!(f, "\\x{byte:02x}"),
        }
    }
}

// Bytes as the script writes them: eight or more of one byte in a row are `\*NNNNb`.
#[derive(Drop)]
pub struct Text<'a>(pub &'a [u8]);

impl Display for Text<'_> {
    fn fmt<W: fmt::Write>(&self, f: &mut Formatter<W>) -> fmt::Result {
        for run in self.0.chunk_by(|a, b| a == b) {
            match run {
                [byte, ..] if 8 <= run.len() => {
                    write!(f, "\\*{:04}{}", run.len() % 10000, Byte(*byte))?;
                }
                _ => {
                    for byte in run {
                        write!(f, "{}", Byte(*byte))?;
                    }
                }
            }
        }
        Ok(())
    }
}

// The sign of a table's entry: the task's number, a dot for idle, a line for a byte that was there before. (A match: an entry is a byte and has no
// type to convert.)
pub fn slot_sign(entry: u8) -> u8 {
    match entry {
        IDLE => b'.',
        NO_SLOT => b'_',
        0..=7 => b'1' + entry,
        _ => b'?',
    }
}

// A table's entries turned into their signs.
pub fn into_signs(table: &mut [u8]) {
    for entry in table.iter_mut() {
        *entry = slot_sign(*entry);
    }
}

// Period, deadline, steps and pattern of a task.
#[derive(Drop)]
struct Row<'a>(&'a Task);

impl Display for Row<'_> {
    fn fmt<W: fmt::Write>(&self, f: &mut Formatter<W>) -> fmt::Result {
        let task = self.0;
        write!(f, " ({} {} {}:", task.period, task.deadline, task.steps)?;
        for units in task.entries() {
            write!(f, " {units}")?;
        }
        f.write_str(")")
    }
}

// The number of tasks, and the tasks.
#[derive(Drop)]
pub struct Set<'a>(pub &'a TaskSet);

impl Display for Set<'_> {
    fn fmt<W: fmt::Write>(&self, f: &mut Formatter<W>) -> fmt::Result {
        let set = self.0;
        write!(f, "set {}", set.count)?;
        for task in set.used() {
            write!(f, "{}", Row(task))?;
        }
        Ok(())
    }
}

// A digit for each task: 0, or the cause for which it was stopped.
#[derive(Drop)]
pub struct Faults<'a>(pub &'a [Option<Cause>]);

impl Display for Faults<'_> {
    fn fmt<W: fmt::Write>(&self, f: &mut Formatter<W>) -> fmt::Result {
        for fault in self.0 {
            write!(f, "{}", fault.map_or(0, u8::from))?;
        }
        Ok(())
    }
}
