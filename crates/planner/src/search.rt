// The search for the first schedule: a step adds the first choice that leads on or finds none, or records one dead position and takes back one
// choice of the list under trial.
ghost use Rattle.std.specs.Prelude.{◌≡◌, suc, ◌*◌, ◌≤◌, length, map};
ghost use Rattle.planner.specs.Rows.{row_tasks};
ghost use Rattle.planner.specs.Ahead.{one_more, urgent_of, leads_task, First, led_to};
ghost use Rattle.planner.specs.Machine.{following, opened, Tries};
ghost use Rattle.planner.specs.Views.{number_of, number_in, machine_of, shut, Trying, Recording, Fits, Opening, Gives, Stepping, end_of, Ran};

use crate::ahead::{Urgent, bit_of, look_ahead};
use crate::area::{put, seen};
use crate::mark::{choice_from, take_back};
use crate::rows::Rows;
use crate::{Answer, Word};
use tasks::IDLE;

// A choice to try in a slot: a task, by its number less 1, or idle. (No Option: where there is none, all are tried.)
#[derive(Clone, Copy, Debug, PartialEq, Eq)]
pub enum Choice {
    Task(u8),
    Idle,
}

// The position that the list under trial leads to, the choice to try behind it (none: all are tried), and the number of records.
#[derive(Clone, Copy, Debug, PartialEq, Eq)]
pub struct Search {
    pub slot: u16,
    pub progress: [u16; 8],
    pub choice: Option<Choice>,
    pub recorded: usize,
}

// What a search is given and leaves as it is: the rows of its tasks, the slots of their hyper-period, and the room for records.
// (No ghost fields: `Fits` and its kin bind these numbers to the search and to both lent buffers, which change with each step.)
#[derive(Clone, Copy)]
pub(crate) struct Frame<'a> {
    pub rows: &'a Rows,
    pub h: u16,
    pub room: usize,
}

#[tactic(auto, using(crate::proofs::Steps::behind_laws))]
// The choice to try behind that of a slot: the tasks in their order, then idle, then none.
fn choice_behind(n: usize, choice: u8) -> Option<Choice>
    ensures { number_in result ≡ following n choice }
{
    match choice {
        IDLE => None,
        c if (c as usize) + 1 < n => Some(Choice::Task(c + 1)),
        _ => Some(Choice::Idle),
    }
}

#[tactic(auto, using(crate::proofs::Firsts::first_laws))]
// The first task, from the choice to try on, that leads to a position which is not recorded. Then `stay` holds that position's progress.
fn first_task(
    n: usize,
    choice: Choice,
    urgent: Urgent,
    slot: u16,
    recorded: usize,
    go: &[Option<u16>; 8],
    stay: &mut [u16; 8],
    area: &[u16],
) -> Option<usize>
    requires n_bound { n ≤ 8 }
    requires n_in_bounds { recorded * suc n ≤ length area.now }
    ensures first { First (leads_task n (urgent_of urgent) slot recorded (map one_more go.now) stay.old area.now) n (number_of choice) result }
    ensures reached { stay.new ≡ led_to result (map one_more go.now) stay.old }
{
    let Choice::Task(from) = choice else {
        return None;
    };
    for i in from as usize..n {
        // (Two tests: after one, `if let .. && ..`, the proof does not know that a task passed over has no way.)
        if let Some(to) = go[i] {
            if urgent.allows(i as u8) {
                let unchosen = stay[i];
                stay[i] = to;
                if !seen(area, recorded, n, slot, stay) {
                    return Some(i);
                }
                stay[i] = unchosen;
            }
        }
    }
    None
}

// The first choice that leads to a live position which is not recorded is added to the list; where there is none, all are tried.
// (In place: a search handed on by value makes planning up to a tenth slower.)
fn lead_on(frame: Frame<'_>, at: &mut Search, choice: Choice, table: &mut [u8], area: &[u16])
    requires { Trying frame.rows.now at.old choice table.old area.now }
    ensures { Tries (row_tasks frame.entry.rows.now) (machine_of frame.entry.rows.now.count at.old table.old area.now) (machine_of frame.entry.rows.now.count at.new table.new area.now) }
{
    let rows = frame.rows;
    let n = rows.count;
    let slot = at.slot;
    let mut before = [0; 8];
    let mut go = [None; 8];
    let ahead = look_ahead(rows, slot, &mut at.progress, &mut before, &mut go);
    let task = first_task(
        n,
        choice,
        ahead.urgent,
        slot + 1,
        at.recorded,
        &go,
        &mut at.progress,
        area,
    );
    let mark = match task {
        Some(c) => ahead.waits + bit_of(c),
        None if ahead.urgent.is_nobody() && !seen(area, at.recorded, n, slot + 1, &at.progress) =>
            ahead.waits,
        None => {
            at.progress = before;
            at.choice = None;
            return;
        }
    };
    table[slot as usize] = mark;
    at.slot = slot + 1;
    at.choice = Some(Choice::Task(0));
}

#[tactic(auto, using(crate::proofs::Backs::back_laws))]
// With no choice left to try the position is dead: it is recorded, and the last choice taken back, or the search is at its end.
fn record_dead(frame: Frame<'_>, at: &mut Search, table: &[u8], area: &mut [u16]) -> Option<Answer>
    requires { Recording frame.rows.now at.old table.now area.old }
    ensures { Gives frame.entry.rows.now.count at.new result table.now area.new (shut (row_tasks frame.entry.rows.now) (machine_of frame.entry.rows.now.count at.old table.now area.old)) }
{
    let rows = frame.rows;
    let n = rows.count;
    let slot = at.slot;
    put(area, at.recorded, n, slot, &at.progress);
    let recorded = at.recorded + 1;
    if slot == 0 {
        return Some(Answer {
            word: Word::Infeasible,
            dead: recorded,
        });
    }
    let last = slot - 1;
    let mark = table[last as usize];
    take_back(rows, slot, &mut at.progress, mark);
    at.slot = last;
    at.choice = choice_behind(n, choice_from(rows, &at.progress, mark));
    at.recorded = recorded;
    None
}

#[tactic(auto, using(crate::proofs::Steps::step_laws))]
// One step of the search: the answer, if it ends the search.
fn step(frame: Frame<'_>, at: &mut Search, table: &mut [u8], area: &mut [u16]) -> Option<Answer>
    requires { Fits frame.rows.now frame.h frame.room at.old table.old area.old }
    ensures { Stepping (row_tasks frame.entry.rows.now) frame.entry.room (machine_of frame.entry.rows.now.count at.old table.old area.old) frame.entry.rows.now.count at.new result table.new area.new }
{
    if at.slot == frame.h {
        return Some(Answer {
            word: Word::Schedule,
            dead: at.recorded,
        });
    }
    match at.choice {
        Some(choice) => {
            lead_on(frame, at, choice, table, area);
            None
        }
        None if at.recorded == frame.room => Some(Answer {
            word: Word::OutOfRoom,
            dead: at.recorded,
        }),
        None => record_dead(frame, at, table, area),
    }
}

// The search from its start to its end.
pub(crate) fn run(frame: Frame<'_>, table: &mut [u8], area: &mut [u16]) -> Answer
    requires { Opening frame.rows.now frame.h frame.room table.old area.old }
    ensures { Ran (row_tasks frame.entry.rows.now) frame.entry.room (opened (row_tasks frame.entry.rows.now) table.old area.old) (end_of result.word) result.dead table.new area.new }
{
    let mut at = Search {
        slot: 0,
        progress: [0; 8],
        choice: Some(Choice::Task(0)),
        recorded: 0,
    };
    // (A machine that runs to its end: no iterator would be plainer.)
    loop {
        if let Some(answer) = step(frame, &mut at, table, area) {
            return answer;
        }
    }
}
