// What a slot does to each task, chosen and not: every choice of the slot is judged from one look at the tasks.
ghost use Rattle.std.specs.Prelude.{◌≡◌, cond, ◌||◌, suc, ◌+◌, ◌*◌, ◌^◌, ◌≤◌, ◌<◌, eqb, length, map, take};
ghost use Rattle.tasks.specs.Slots.{well_at};
ghost use Rattle.tasks.specs.Timed.{timed_task};
ghost use Rattle.planner.specs.Rows.{row_tasks};
ghost use Rattle.planner.specs.Ahead.{one_more, urgent_of, urgent_in, IsWay, Ahead};

use crate::rows::Rows;
use tasks::Standing;
use tasks::timed::{Since, Timed};

// (No Option for `stay`: it is told whether the task ends the slot well or not.)
// One task: whether its progress rises unchosen, whether it ends the slot well unchosen, its progress in the next slot unchosen, and chosen, if
// it may be chosen and ends the slot well.
#[derive(Clone, Copy, Debug, PartialEq, Eq)]
pub struct Ways {
    pub rises: bool,
    pub well: bool,
    pub stay: u16,
    pub go: Option<u16>,
}

// The progress in the next slot, from that at the end of a slot, if the task ends the slot well.
fn go_from(task: &Timed, since: Since, end: u16) -> Option<u16>
    ensures { one_more result ≡ cond (well_at since.slots (timed_task task.now) end) (suc (cond (eqb since.slots (timed_task task.now).period) 0 end)) 0 }
{
    if task.ends_well(since, end) {
        Some(task.begun(since, end))
    } else {
        None
    }
}

// What a slot does to a task. (With one `Ways` for the three standings planning takes 6% longer, and misses its bar.)
#[tactic(auto, using(crate::proofs::Outlooks::way_laws))]
fn ways_of(task: &Timed, slot: u16, progress: u16) -> Ways
    ensures { IsWay slot (timed_task task.now) progress result.rises result.well result.stay (one_more result.go) }
{
    let since = task.since_end(slot);
    match task.standing_at(progress) {
        Standing::Ready => Ways {
            rises: false,
            well: task.ends_well(since, progress),
            stay: task.begun(since, progress),
            go: go_from(task, since, progress + 1),
        },
        Standing::Waiting => Ways {
            rises: true,
            well: task.ends_well(since, progress + 1),
            stay: task.begun(since, progress + 1),
            go: None,
        },
        // (Whatever is done ends a slot alike. At the length a test falls away, for each task that is done early.)
        Standing::Done => Ways {
            rises: false,
            well: task.ends_well(since, task.length),
            stay: task.begun(since, progress),
            go: None,
        },
    }
}

// The tasks that have to be chosen in a slot: none, one alone, by its number less 1, or several.
#[derive(Clone, Copy, Debug, PartialEq, Eq)]
pub enum Urgent {
    Nobody,
    Only(u8),
    Several,
}

impl Urgent {
    // No task has to be chosen.
    pub(crate) fn is_nobody(self) -> bool
        ensures { result ≡ eqb (urgent_of self) 256 }
    {
        self == Urgent::Nobody
    }

    // No other task has to be chosen.
    pub(crate) fn allows(self, c: u8) -> bool
        ensures { result ≡ eqb (urgent_of self) 256 || eqb (urgent_of self) c }
    {
        self == Urgent::Nobody || self == Urgent::Only(c)
    }
}

// The tasks that have to be chosen, from how many they are and the first of them, by its number less 1.
#[tactic(auto, using(crate::proofs::Outlooks::urgent_laws))]
fn urgent_from(late: u8, first: u8) -> Urgent
    ensures { urgent_of result ≡ urgent_in late first }
{
    match late {
        0 => Urgent::Nobody,
        1 => Urgent::Only(first),
        _ => Urgent::Several,
    }
}

// The look ahead: the mark of the tasks that rise unchosen, and the tasks that have to be chosen.
#[derive(Clone, Copy, Debug, PartialEq, Eq)]
pub struct Outlook {
    pub waits: u8,
    pub urgent: Urgent,
}

// The look ahead from a position. Each task's progress is put in `before` and becomes that in the next slot, unchosen, and that if it is chosen is
// put in `go`. (With arrays in the answer, planning takes up to 1.9 times as long as in C. The progress is saved one by one: a whole copy waits
// for the writes just before it, and planning takes up to a tenth longer.)
pub(crate) fn look_ahead(
    rows: &Rows,
    slot: u16,
    progress: &mut [u16; 8],
    before: &mut [u16; 8],
    go: &mut [Option<u16>; 8],
) -> Outlook
    ensures saved { take rows.now.count before.new ≡ take rows.now.count progress.old }
    ensures ahead { Ahead (row_tasks rows.now) slot (take rows.now.count progress.old) result.waits (urgent_of result.urgent) progress.new (map one_more go.new) }
{
    let mut waits: u16 = 0;
    // (Counted, and made an enum at the end: a match for each task costs a tenth more instructions, near the bar of planning.)
    let mut late = 0;
    let mut first = 0;
    // (By place: four arrays go side by side, from the last task to the first.)
    for i in (0..rows.count).rev() {
        let way = ways_of(&rows.tasks[i], slot, progress[i]);
        before[i] = progress[i];
        progress[i] = way.stay;
        go[i] = way.go;
        waits = waits * 2 + way.rises as u16;
        if !way.well {
            late += 1;
            first = i as u8;
        }
    }
    Outlook {
        waits: waits as u8,
        urgent: urgent_from(late, first),
    }
}

// The bit of a task in a mark.
pub(crate) fn bit_of(i: usize) -> u8
    requires { i < 8 }
    ensures { result ≡ 2 ^ i }
{
    1 << i
}
