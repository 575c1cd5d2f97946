// A start: the state that a set begins in, and whether a table is a schedule.
ghost use Rattle.std.specs.Prelude.{◌≡◌, ◌&&◌, ◌≤◌, None, length, replicate};
ghost use Rattle.rules.specs.Lists.{padded};
ghost use Rattle.rules.specs.Positions.{live_position, start};
ghost use Rattle.rules.specs.Choices.{live_from};
ghost use Rattle.rules.specs.Jobs.{finished};
ghost use Rattle.rules.specs.Player.{fresh};
ghost use Rattle.rules.specs.States.{blank_job, tidy_task, tidied, as_record};
ghost use Rattle.tasks.specs.Views.{entry_of, record_of, set_of};
ghost use Rattle.player.specs.Views.{jobs_of, state_of};

use crate::{Job, State};
use tasks::position::Onward;
use tasks::{Position, Task, TaskSet};

// A task with zeros beyond its steps.
fn tidy_task(task: &Task) -> Task
    ensures { entry_of result ≡ tidy_task (entry_of task.now) }
{
    let entries = task.entries();
    let mut pattern = [0; 7];
    pattern[..entries.len()].copy_from_slice(entries);
    Task { pattern, ..*task }
}

// A set with zeros in the parts not in use.
fn tidy_set(set: &TaskSet) -> TaskSet
    ensures { record_of result ≡ tidied (record_of set.now) }
{
    let mut tasks = [Task::default(); 8];
    // By place: of a struct that is written through `iter_mut` nothing is known.
    for (i, task) in set.used().iter().enumerate() {
        tasks[i] = tidy_task(task);
    }
    TaskSet { tasks, ..*set }
}

// The first n jobs are done; the others are not in use.
fn fresh_jobs(n: usize) -> [Job; 8]
    requires { n ≤ 8 }
    ensures { jobs_of result ≡ padded 8 blank_job (replicate n finished) }
{
    let mut jobs = [Job::default(); 8];
    jobs[..n].fill(Job::done());
    jobs
}

// The state at a start: the start position, all jobs done, nobody ran.
pub(crate) fn fresh_state(set: &TaskSet) -> State
    ensures begun { state_of result ≡ as_record (tidied (record_of set.now)) (fresh (set_of set.now)) }
    ensures nobody { result.last ≡ None }
{
    State {
        set: tidy_set(set),
        slot: 0,
        planned: [0; 8],
        jobs: fresh_jobs(set.used().len()),
        last: None,
    }
}

#[tactic(auto, using(crate::proofs::Starts::follow_laws))]
// The table is a live list of choices from the start.
pub(crate) fn is_live(set: &TaskSet, table: &[u8]) -> bool
    requires { length table.now ≤ 65535 }
    ensures { result ≡ (live_position (set_of set.now) (start (set_of set.now)) && live_from (set_of set.now) (start (set_of set.now)) table.now) }
{
    // (Written out: over a derived `Default` the proof did not close.)
    let mut at = Position {
        slot: 0,
        progress: [0; 8],
    };
    if !set.is_live(&at) {
        return false;
    }
    for entry in table {
        let Onward { legal, progress } = set.advance(&at, *entry);
        if !legal {
            return false;
        }
        at = Position {
            slot: at.slot + 1,
            progress,
        };
    }
    true
}
