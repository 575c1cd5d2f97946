// The byte that a slot leaves behind in the table during the search, and what is read from it.
ghost use Rattle.std.specs.Prelude.{◌≡◌, cond, ◌&&◌, ◌++◌, suc, ◌+◌, ◌-◌, ◌%◌, ◌≤◌, eqb, length, take, drop};
ghost use Rattle.rules.specs.Tasks.{span, standing, is_ready};
ghost use Rattle.rules.specs.Positions.{each, start, starts, restarted};
ghost use Rattle.tasks.specs.Timed.{timed_task};
ghost use Rattle.planner.specs.Rows.{row_tasks, Modest};
ghost use Rattle.planner.specs.Marks.{lowered, raised, unstarted, chosen, spelled, Listed};

use crate::rows::Rows;
use tasks::timed::Timed;
use tasks::{IDLE, Standing};

// A task's progress at the end of the slot before, from that at the start of `slot`.
#[tactic(auto, using(crate::proofs::Loops::end_laws))]
fn at_end(task: &Timed, slot: u16, progress: u16) -> u16
    ensures { result ≡ cond (starts slot (timed_task task.now)) (span (timed_task task.now)) progress }
{
    if task.since_release(u32::from(slot)) == 0 {
        return task.length;
    }
    progress
}

// The progress before a slot, from that at the start of the next one, `slot`, and the slot's mark.
// (In place: a new array is copied whole, and waits for the writes just before it.)
pub(crate) fn take_back(rows: &Rows, slot: u16, progress: &mut [u16; 8], mark: u8)
    ensures { take rows.now.count progress.new ≡ lowered mark (each (unstarted slot) 0 (row_tasks rows.now) (take rows.now.count progress.old)) }
{
    let mut bits = mark;
    for (i, task) in rows.in_use().iter().enumerate() {
        let end = at_end(task, slot, progress[i]);
        progress[i] = end.saturating_sub((bits % 2) as u16);
        bits /= 2;
    }
}

// The lowest bit is set, and the task was ready.
#[tactic(auto, using(crate::proofs::Loops::rose_laws))]
fn rose(task: &Timed, before: u16, bits: u8) -> bool
    ensures { result ≡ eqb (bits % 2) 1 && is_ready (standing (timed_task task.now) before) }
{
    bits % 2 == 1 && matches!(task.standing_at(before), Standing::Ready)
}

// The choice of a slot from its mark and the progress before it: a byte, as the table takes it.
pub(crate) fn choice_from(rows: &Rows, before: &[u16; 8], mark: u8) -> u8
    ensures { result ≡ chosen 0 mark (row_tasks rows.now) (take rows.now.count before.now) }
{
    let mut bits = mark;
    for (i, task) in rows.in_use().iter().enumerate() {
        if rose(task, before[i], bits) {
            return i as u8;
        }
        bits /= 2;
    }
    IDLE
}

// The progress in the next slot, from that before a slot and the slot's mark.
fn go_along(rows: &Rows, slot: u16, mark: u8, progress: &mut [u16; 8])
    requires { Modest rows.now.count progress.old }
    ensures { take rows.now.count progress.new ≡ each (restarted (suc slot)) 0 (row_tasks rows.now) (raised mark (take rows.now.count progress.old)) }
{
    let mut bits = mark;
    for (i, task) in rows.in_use().iter().enumerate() {
        let risen = progress[i] + (bits % 2) as u16;
        progress[i] = task.begun(task.since_end(slot), risen);
        bits /= 2;
    }
}

// The first h bytes of the table, from marks into choices.
pub(crate) fn spell(rows: &Rows, table: &mut [u8], h: u16)
    requires h_in_bounds { h ≤ length table.old }
    requires listed { Listed (row_tasks rows.now) h table.old }
    ensures { table.new ≡ spelled (row_tasks rows.now) (start (row_tasks rows.now)) (take h table.old) ++ drop h table.old }
{
    let mut progress = [0; 8];
    for slot in 0..h {
        let i = slot as usize;
        let mark = table[i];
        table[i] = choice_from(rows, &progress, mark);
        go_along(rows, slot, mark, &mut progress);
    }
}
