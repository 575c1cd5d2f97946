// The planner: the first schedule, or an exact no.
#![tactic(auto)]

pub mod ahead;
pub mod area;
pub mod mark;
pub mod rows;
pub mod search;

ghost use Rattle.rules.specs.Planner.{PlanReply};
ghost use Rattle.tasks.specs.Views.{record_of};
ghost use Rattle.planner.specs.Views.{answer_of};

use crate::area::fill;
use crate::mark::spell;
use crate::rows::Rows;
use crate::search::{Frame, run};
use tasks::{Position, Refusal, TaskSet};

#[derive(Clone, Copy, Debug, PartialEq, Eq)]
pub enum Word {
    Schedule,
    Infeasible,
    OutOfRoom,
}

// A word, and the number of dead positions that were recorded.
#[derive(Clone, Copy, Debug, PartialEq, Eq)]
pub struct Answer {
    pub word: Word,
    pub dead: usize,
}

// The reply to a task set: what is returned, and what the lent table and area hold afterwards.
pub fn plan(set: &TaskSet, table: &mut [u8], area: &mut [u16]) -> Result<Answer, Refusal>
    ensures { PlanReply (record_of set.now) table.old area.old (answer_of result) table.new area.new }
{
    let h = set.admit()?;
    let slots = h as usize;
    if table.len() < slots {
        return Err(Refusal::ShortTable);
    }
    // (Written out: over a derived `Default` the proof did not close.)
    let start = Position {
        slot: 0,
        progress: [0; 8],
    };
    if !set.is_live(&start) {
        fill(table, slots);
        return Ok(Answer {
            word: Word::Infeasible,
            dead: 0,
        });
    }
    let rows = Rows::of(set);
    let room = area.len() / (rows.count + 1);
    let frame = Frame {
        rows: &rows,
        h,
        room,
    };
    let answer = run(frame, table, area);
    match answer.word {
        Word::Schedule => spell(&rows, table, h),
        Word::Infeasible | Word::OutOfRoom => fill(table, slots),
    }
    Ok(answer)
}
