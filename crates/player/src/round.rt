// A tick of all tasks: each takes its turn.
ghost use Rattle.std.specs.Prelude.{◌≡◌, ℕ, suc, ◌%◌, ◌<◌, eqb, length};
ghost use Rattle.rules.specs.Lists.{padded};
ghost use Rattle.rules.specs.Player.{tick};
ghost use Rattle.rules.specs.States.{blank_job, in_use};
ghost use Rattle.tasks.specs.Views.{set_of};
ghost use Rattle.player.specs.Views.{IsTask, fault_number, runner_number, faults_of, jobs_of, state_of};
ghost use Rattle.player.specs.Turns.{turn_in, turn_for};

use crate::form::Formed;
use crate::turn::{Report, TaskTurn};
use crate::{Cause, Job, State};

// What the turns of all tasks give: their jobs, their faults, and who runs. (Side by side, as the state and the reply take them.)
#[derive(Clone, Copy, Debug, Default, PartialEq, Eq)]
pub struct TurnsTaken {
    pub jobs: [Job; 8],
    pub faults: [Option<Cause>; 8],
    pub runner: Option<u8>,
}

impl State {
    // Task i + 1 ran last.
    pub(crate) fn ran(&self, i: usize) -> bool
        requires { i < 255 }
        ensures { result ≡ eqb (runner_number self.now.last) i }
    {
        self.last.is_some_and(|last| usize::from(last) == i)
    }
}

impl Formed<'_> {
    // Task i + 1 at its turn, in a slot of this entry.
    fn turn(&self, i: usize, entry: u8) -> TaskTurn
        requires place { i < 8 }
        requires used { i < self.now.state.now.set.count }
        ensures { (report : ℕ) → turn_in result report ≡ turn_for self.now.state.now entry i report }
    {
        TaskTurn {
            task: self.state.set.tasks[i],
            slot: self.state.slot,
            planned: self.state.planned[i],
            owner: usize::from(entry) == i,
            ran: self.state.ran(i),
            job: self.state.jobs[i],
        }
    }

    // Every task takes its turn. The owner of the slot is the only one that can run.
    pub(crate) fn turns(&self, table: &[u8], reports: &[u8]) -> TurnsTaken
        requires slots { length table.now ≡ self.now.hyper }
        requires each { length reports.now ≡ self.now.state.now.set.count }
        ensures jobs { jobs_of result.jobs ≡ padded 8 blank_job (tick (set_of self.now.state.now.set) table.now (in_use (state_of self.now.state.now)) reports.now).state.jobs }
        ensures faults { faults_of result.faults ≡ padded 8 0 (tick (set_of self.now.state.now.set) table.now (in_use (state_of self.now.state.now)) reports.now).faults }
        ensures runner { runner_number result.runner ≡ (tick (set_of self.now.state.now.set) table.now (in_use (state_of self.now.state.now)) reports.now).runner }
        ensures task { IsTask result.runner }
    {
        let entry = table[usize::from(self.state.slot)];
        let mut jobs = [Job::default(); 8];
        let mut faults = [None; 8];
        let mut runner = None;
        // By place: of a struct that is written through `iter_mut` nothing is known.
        for (i, report) in reports.iter().enumerate() {
            let taken = self.turn(i, entry).take(Report::from(*report));
            jobs[i] = taken.job;
            faults[i] = taken.fault;
            if taken.runs {
                runner = Some(entry);
            }
        }
        TurnsTaken {
            jobs,
            faults,
            runner,
        }
    }
}

// The slot after this one: 0 after the last of the hyper-period.
pub(crate) fn slot_after(slot: u16, hyper: u16) -> u16
    requires { slot < hyper }
    ensures { result ≡ suc slot % hyper }
{
    let after = slot + 1;
    if after == hyper {
        return 0;
    }
    after
}
