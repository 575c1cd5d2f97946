// One task's turn at a tick: the report on the slot just ended, a new job where the period divides the slot, and the slot's owner.
ghost use Rattle.std.specs.Prelude.{◌≡◌, true, ◌&&◌, ◌<◌, T, min, eqb};
ghost use Rattle.rules.specs.Tasks.{written, place_of};
ghost use Rattle.rules.specs.Positions.{starts};
ghost use Rattle.rules.specs.Jobs.{finished, stop, step_done, reported, begun, owner_runs, owner_late, owned_by, new_fault};
ghost use Rattle.rules.specs.States.{job_form};
ghost use Rattle.tasks.specs.Views.{task_of};
ghost use Rattle.player.specs.Views.{cause_of, stand_of, job_of, fault_of, fault_number};
ghost use Rattle.player.specs.Reports.{report_number};

use crate::{Cause, Job, Stand};
use tasks::Task;

// What is told of a task about the slot just ended. Any byte above 2 tells nothing that can be true.
#[derive(Clone, Copy, Debug, PartialEq, Eq)]
pub enum Report {
    Nothing,
    StepDone,
    WaitEnded,
    Other,
}

impl From<u8> for Report {
    ghost from_gives = { λ byte report. report_number report ≡ min byte 3 };

    fn from(byte: u8) -> Report {
        match byte {
            0 => Report::Nothing,
            1 => Report::StepDone,
            2 => Report::WaitEnded,
            _ => Report::Other,
        }
    }
}

// The fault byte of a cause.
impl From<Cause> for u8 {
    ghost from_gives = { λ cause n. n ≡ fault_of cause };

    fn from(cause: Cause) -> u8 {
        match cause {
            Cause::Overrun => 1,
            Cause::Late => 2,
            Cause::Untrue => 3,
        }
    }
}

#[tactic(auto, unfolding(crate::specs::Views::stand_of, crate::specs::Views::cause_of, crate::specs::Views::job_of, rules::specs::Jobs::finished, rules::specs::Jobs::stop, rules::specs::Jobs::owner_runs, rules::specs::Jobs::owner_late, rules::specs::Jobs::owned_by, rules::specs::Jobs::new_fault, rules::specs::Jobs::code))]
impl Job {
    // A job that is done: its step and slots are not in use.
    pub(crate) fn done() -> Job
        ensures { job_of result ≡ finished }
    {
        Job {
            stand: Stand::Done,
            ..Job::default()
        }
    }

    // A job that is stopped for a cause.
    fn stopped(cause: Cause) -> Job
        ensures { job_of result ≡ stop (cause_of cause) }
    {
        Job {
            stand: Stand::Stopped(cause),
            ..Job::default()
        }
    }

    // The owner of the slot runs if it is ready in the planned step.
    fn runs_at(&self, place: usize) -> bool
        ensures { result ≡ owner_runs (stand_of self.now.stand) place (job_of self.now) }
    {
        let own = 2 * usize::from(self.step);
        match self.stand {
            Stand::Ready => own == place,
            Stand::Waiting | Stand::Done | Stand::Stopped(_) => false,
        }
    }

    // The owner is late if it still waits before the planned step, or is in an earlier one.
    fn is_late_at(&self, place: usize) -> bool
        ensures { result ≡ owner_late (stand_of self.now.stand) place (job_of self.now) }
    {
        let own = 2 * usize::from(self.step);
        match self.stand {
            Stand::Ready => own < place,
            Stand::Waiting => own + 1 < place,
            Stand::Done | Stand::Stopped(_) => false,
        }
    }

    // What the slot does to its owner: a slot given, stopped as late, or nothing.
    fn owned(self, runs: bool, late: bool) -> Job
        requires { runs ≡ true → self.given < 255 }
        ensures { job_of result ≡ owned_by runs late (job_of self) }
    {
        if runs {
            return Job {
                stand: Stand::Ready,
                given: self.given + 1,
                ..self
            };
        }
        if late {
            return Job::stopped(Cause::Late);
        }
        self
    }

    // The cause for which the job was stopped just now. A fault is shown once: none for a job that was stopped before.
    fn new_fault(&self, before: &Job) -> Option<Cause>
        ensures { fault_number result ≡ new_fault (stand_of before.now.stand) (stand_of self.now.stand) }
    {
        match (before.stand, self.stand) {
            (Stand::Stopped(_), _) => None,
            (_, Stand::Stopped(cause)) => Some(cause),
            _ => None,
        }
    }
}

// A task at its turn: its job and planned progress, the slot, whether the slot is its own, and whether it ran in the slot before.
// The job has its form, and the plan begins anew where the job does.
#[derive(Clone, Copy)]
pub struct TaskTurn {
    pub task: Task,
    pub slot: u16,
    pub planned: u16,
    pub owner: bool,
    pub ran: bool,
    pub job: Job,
    ghost formed: { T (job_form (task_of task) ran (job_of job)) },
    ghost anew: { T (starts slot (task_of task)) → place_of (task_of task).pattern planned ≡ 0 },
}

// What a task's turn gives: its job, whether it runs in this slot, and its fault.
#[derive(Clone, Copy, Debug, PartialEq, Eq)]
pub struct TurnTaken {
    pub job: Job,
    pub runs: bool,
    pub fault: Option<Cause>,
}

#[tactic(auto, unfolding(crate::specs::Views::stand_of, crate::specs::Views::cause_of, crate::specs::Views::job_of, rules::specs::Jobs::step_done, rules::specs::Jobs::reported, rules::specs::Jobs::begun, rules::specs::Tasks::written, rules::specs::Jobs::owned_by, rules::specs::Jobs::turn))]
impl TaskTurn {
    ghost use Rattle.player.specs.Turns.{turn_in};

    // The step is finished: the wait behind it begins in the next slot, or the job is done after the last step.
    fn step_done(&self) -> Job
        ensures { job_of result ≡ step_done (task_of self.now.task) (job_of self.now.job) }
    {
        let wait = 2 * usize::from(self.job.step) + 1;
        if wait < self.task.fields() {
            return Job {
                stand: Stand::Waiting,
                given: 0,
                ..self.job
            };
        }
        Job::done()
    }

    // It ran, and every slot of its step was given.
    fn overruns(&self) -> bool
        ensures { result ≡ self.now.ran && eqb self.now.job.given (written (task_of self.now.task) self.now.job.step) }
    {
        let place = 2 * usize::from(self.job.step);
        self.ran && u16::from(self.job.given) == self.task.units_at(place)
    }

    // The report on the slot just ended. A stopped job ignores it.
    fn reported(&self, report: Report) -> Job
        ensures { job_of result ≡ reported (task_of self.now.task) (stand_of self.now.job.stand) self.now.ran (job_of self.now.job) (report_number report) }
    {
        let job = self.job;
        match (job.stand, report) {
            (Stand::Stopped(_), _) => job,
            (Stand::Ready, Report::Nothing) if self.overruns() => Job::stopped(Cause::Overrun),
            (_, Report::Nothing) => job,
            (Stand::Ready, Report::StepDone) if self.ran => self.step_done(),
            (Stand::Waiting, Report::WaitEnded) => Job {
                step: job.step + 1,
                ..Job::default()
            },
            _ => Job::stopped(Cause::Untrue),
        }
    }

    // A new job, ready in its first step, where the period divides the slot.
    fn begun(&self, job: Job) -> Job
        ensures { job_of result ≡ begun (task_of self.now.task) self.now.slot (job_of job) }
    {
        if self.task.starts_at(u32::from(self.slot)) {
            Job::default()
        } else {
            job
        }
    }

    // The turn: the report, then a new job, then the slot.
    pub(crate) fn take(self, report: Report) -> TurnTaken
        ensures job { job_of result.job ≡ (turn_in self (report_number report)).job }
        ensures runs { result.runs ≡ (turn_in self (report_number report)).runs }
        ensures fault { fault_number result.fault ≡ (turn_in self (report_number report)).fault }
    {
        let told = self.reported(report);
        let begun = self.begun(told);
        let fault = told.new_fault(&self.job);
        if !self.owner {
            return TurnTaken {
                job: begun,
                runs: false,
                fault,
            };
        }
        let place = self.task.place_at(self.planned);
        let runs = begun.runs_at(place);
        let late = begun.is_late_at(place);
        TurnTaken {
            job: begun.owned(runs, late),
            runs,
            fault: if late { Some(Cause::Late) } else { fault },
        }
    }
}
