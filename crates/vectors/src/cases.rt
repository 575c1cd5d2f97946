// The three kinds of cases.
use crate::bytes::Bytes;
use crate::read::{Fields, number, values};
use crate::records;
use crate::write::{Faults, NO_SLOT, Set, Text, into_signs, slot_sign};
use planner::{Answer, Word};
use player::State;
use std::io;
use std::io::Write;
use tasks::{IDLE, TaskSet};

// A lent area's numbers, a number that no reply holds.
const NO_NUMBER: u16 = 60000;

// The most slots of a table and numbers of an area that are lent, and the most records that are shown.
const SLOTS: usize = 5000;

const NUMBERS: usize = 24000;

pub const SHOWN: usize = 12;

// The reader's reply to a list.
pub fn reading<W: Write>(out: &mut W, list: &[u8]) -> io::Result<()> {
    match list::read(list) {
        Ok(set) => writeln!(out, "  refusal 0, line 0, start 0, size 0: {}", Set(&set)),
        Err(e) => writeln!(
            out,
            "  refusal {}, line {}, start {}, size {}: \"{}\"",
            u8::from(e.why),
            e.line,
            e.start,
            e.text.len(),
            Text(e.text)
        ),
    }
}

// The lent table and area after a reply with so many records for so many tasks. Where all had room, and there are few, they are shown, in
// order: their order in the area is free, and so is which remain where there was no room for all.
fn buffers<W: Write>(
    out: &mut W,
    table: &mut [u8],
    area: &[u16],
    tasks: u8,
    count: usize,
    shown: bool,
) -> io::Result<()> {
    into_signs(table);
    let numbers = count.saturating_mul(usize::from(tasks) + 1);
    let kept = area
        .iter()
        .skip(numbers)
        .filter(|n| **n == NO_NUMBER)
        .count();
    write!(
        out,
        "  table \"{}\"\n  area {count} records, {kept} kept",
        Text(table)
    )?;
    if shown && count <= SHOWN {
        records::all(out, area, count, tasks)?;
    }
    out.write_all(b"\n")
}

// The planner's reply to a set, and what it leaves in the table and the area.
fn planned<W: Write>(
    out: &mut W,
    set: &TaskSet,
    table: &mut [u8],
    area: &mut [u16],
) -> io::Result<()> {
    match planner::plan(set, table, area) {
        Ok(Answer { word, dead }) => {
            let name = match word {
                Word::Schedule => "schedule",
                Word::Infeasible => "infeasible",
                Word::OutOfRoom => "out of room",
            };
            writeln!(out, "  {name} {dead}")?;
            let shown = !matches!(word, Word::OutOfRoom);
            buffers(out, table, area, set.count, dead, shown)
        }
        Err(refusal) => {
            writeln!(out, "  refused {}", u8::from(refusal))?;
            buffers(out, table, area, set.count, 0, false)
        }
    }
}

// A plan: the list, the length of the table and that of the area.
pub fn planning<W: Write>(out: &mut W, list: &[u8], mut fields: Fields<'_>) -> io::Result<()> {
    let Ok(set) = list::read(list) else {
        return reading(out, list);
    };
    let slots = fields.next().map_or(0, number).min(SLOTS);
    let numbers = fields.next().map_or(0, number).min(NUMBERS);
    let mut table = [NO_SLOT; SLOTS];
    let mut area = [NO_NUMBER; NUMBERS];
    planned(out, &set, &mut table[..slots], &mut area[..numbers])
}

// A tick with the table and the reports, which are written as in the script, and its reply. The new state.
fn tick<W: Write>(
    out: &mut W,
    state: State,
    table: &[u8],
    signs: &[u8],
    reports: &[u8],
) -> io::Result<State> {
    write!(out, "  {}: ", state.slot)?;
    out.write_all(signs)?;
    match player::tick(state, table, reports) {
        Ok(ticked) => {
            let runner = char::from(slot_sign(ticked.runner.unwrap_or(IDLE)));
            let used = ticked.state.set.used().len();
            writeln!(out, " -> {runner} {}", Faults(&ticked.faults[..used]))?;
            Ok(ticked.state)
        }
        Err(refusal) => {
            writeln!(out, " -> refused {}", u8::from(refusal))?;
            Ok(state)
        }
    }
}

// A play: the list, the table and the reports of each tick. A field that begins with `=` is the table from there on.
pub fn playing<W: Write>(out: &mut W, list: &[u8], mut fields: Fields<'_>) -> io::Result<()> {
    let Ok(set) = list::read(list) else {
        return reading(out, list);
    };
    let Some(field) = fields.next() else {
        return Ok(());
    };
    let mut table = Bytes::new();
    values(field, b'1', &mut table);
    let mut state = match player::start(&set, table.as_slice()) {
        Ok(state) => state,
        Err(refusal) => return writeln!(out, "  refused {}", u8::from(refusal)),
    };
    let mut reports = Bytes::new();
    for field in fields {
        match field {
            [b'=', signs @ ..] => values(signs, b'1', &mut table),
            signs => {
                values(signs, b'0', &mut reports);
                state = tick(out, state, table.as_slice(), signs, reports.as_slice())?;
            }
        }
    }
    Ok(())
}
