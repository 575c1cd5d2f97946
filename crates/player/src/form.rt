// The form that a state must have, else 10.
ghost use Rattle.std.specs.Prelude.{◌≡◌, ◌==◌, true, false, T, MatchOption, length, map};
ghost use Rattle.std.specs.List.{list_all};
ghost use Rattle.rules.specs.Hyper as rules;
ghost use Rattle.rules.specs.Records.{set_in};
ghost use Rattle.rules.specs.States.{is_blank_job, is_blank_task, units_tidy, job_form, last_form, form};
ghost use Rattle.tasks.specs.Views.{entry_of, task_of};
ghost use Rattle.tasks.specs.Timed.{timed_task};
ghost use Rattle.player.specs.Views.{job_of, runner_number, state_of};
ghost use Rattle.player.specs.Forms.{plan_fits, task_fits, tasks_fit, rest_fits, others_fit, Leads};

use crate::{Job, Stand, State};
use tasks::position::Onward;
use tasks::timed::Timed;
use tasks::{IDLE, Refusal, Task};

// A state of the form, with its set's hyper-period. The test below alone makes it.
#[derive(Clone, Copy, Debug, PartialEq, Eq)]
pub struct Formed<'a> {
    pub state: &'a State,
    pub hyper: u16,
    pub ghost formed: { T (form (state_of state.now)) },
    pub ghost period: { hyper ≡ rules.hyper (set_in (state_of state.now).set) },
}

// A task's planned progress: at most L, 0 where its job starts, and in time.
#[tactic(auto, using(crate::proofs::Forms::plans))]
fn plan_fits(task: &Timed, slot: u16, progress: u16) -> bool
    ensures { result ≡ plan_fits slot (timed_task task.now) progress }
{
    let since = task.since_start(slot);
    progress <= task.length && (progress == 0 || since.slots != 0) && task.in_time(since, progress)
}

// A task's job, which ran last or not: its step within the pattern, waiting only between two steps, parts not in use zero.
#[tactic(auto, using(std::proofs::lemmas::Grind::common_steps), unfolding(rules::specs::Lists::is_zero, rules::specs::States::job_form, rules::specs::States::job_form_in, rules::specs::Tasks::written, crate::specs::Views::job_of, crate::specs::Views::stand_of))]
fn job_fits(task: &Task, ran: bool, job: &Job) -> bool
    ensures { result ≡ job_form (task_of task.now) ran (job_of job.now) }
{
    let entries = task.entries();
    let place = 2 * usize::from(job.step);
    match job.stand {
        Stand::Ready => match entries.get(place) {
            Some(units) if ran => job.given <= *units,
            Some(units) => job.given < *units,
            None => false,
        },
        Stand::Waiting => place + 2 < entries.len() && job.given == 0,
        Stand::Done | Stand::Stopped(_) => job.step == 0 && job.given == 0,
    }
}

// Each part is this one.
fn all_are<T: PartialEq>(parts: &[T], one: &T) -> bool
    ensures { result ≡ list_all (λ part. T.eq part one.now) parts.now }
{
    parts.iter().all(|part| part == one)
}

// A task's units beyond its steps are zero.
#[tactic(auto, using(crate::proofs::Forms::blanks))]
fn is_tidy(task: &Task) -> bool
    ensures { result ≡ units_tidy (entry_of task.now) }
{
    all_are(&task.pattern[task.fields()..], &0)
}

// A task in use, its planned progress and its job.
#[tactic(auto, unfolding(tasks::specs::Views::task_of))]
fn task_fits(task: &Task, timed: &Timed, slot: u16, progress: u16, ran: bool, job: &Job) -> bool
    requires { timed_task timed.now ≡ task_of task.now }
    ensures { result ≡ task_fits slot (entry_of task.now) progress ran (job_of job.now) }
{
    plan_fits(timed, slot, progress) && job_fits(task, ran, job) && is_tidy(task)
}

// Where a choice leads, if each task in use, its planned progress and its job fit. (One look at a task serves both: `advance` behind a test of all
// tasks took a tenth longer for a tick.)
fn look(state: &State, choice: u8) -> Option<Onward>
    ensures { MatchOption result (tasks_fit (state_of state.now) 0 ≡ false) (λ onward. (tasks_fit (state_of state.now) 0 ≡ true) × Leads state.now choice onward) }
{
    let mut legal = state.set.may_choose(&state.planned, choice);
    let mut progress = [0u16; 8];
    for (i, task) in state.set.used().iter().enumerate() {
        let timed = Timed::from(*task);
        let planned = state.planned[i];
        if !task_fits(
            task,
            &timed,
            state.slot,
            planned,
            state.ran(i),
            &state.jobs[i],
        ) {
            return None;
        }
        let passed = timed.pass(state.slot, planned, usize::from(choice) == i);
        progress[i] = passed.progress;
        legal = legal && passed.well;
    }
    Some(Onward { legal, progress })
}

// The last runner: none, or a ready task with a slot given.
#[tactic(auto, using(std::proofs::lemmas::Grind::common_steps), unfolding(rules::specs::States::last_form, rules::specs::States::is_ready_stand, rules::specs::Positions::idle, crate::specs::Views::job_of, crate::specs::Views::stand_of))]
fn last_fits(jobs: &[Job], last: Option<u8>) -> bool
    ensures { result ≡ last_form (length jobs.now) (runner_number last) (map job_of jobs.now) }
{
    match last {
        None | Some(IDLE) => true,
        Some(i) => match jobs.get(usize::from(i)) {
            Some(job) => job.stand == Stand::Ready && 0 < job.given,
            None => false,
        },
    }
}

// A task not in use. (A derived == says nothing of a pattern of another length, which the proof would have to exclude.)
#[tactic(auto, using(crate::proofs::Forms::blanks))]
fn is_blank(task: &Task) -> bool
    ensures { result ≡ is_blank_task (entry_of task.now) }
{
    task.period == 0 && task.deadline == 0 && task.steps == 0 && all_are(&task.pattern, &0)
}

fn tasks_blank(tasks: &[Task]) -> bool
    ensures { result ≡ list_all (λ task. is_blank_task (entry_of task)) tasks.now }
{
    tasks.iter().all(is_blank)
}

#[tactic(auto, unfolding(rules::specs::Lists::is_zero, rules::specs::States::is_blank_job, rules::specs::States::is_ready_stand, crate::specs::Views::job_of, crate::specs::Views::stand_of))]
fn jobs_blank(jobs: &[Job]) -> bool
    ensures { result ≡ list_all (λ job. is_blank_job (job_of job)) jobs.now }
{
    jobs.iter().all(|job| *job == Job::default())
}

// The parts not in use are zero.
#[tactic(auto, using(crate::proofs::Forms::parts))]
fn rest_fits(state: &State) -> bool
    ensures { result ≡ rest_fits (state_of state.now) }
{
    let n = state.set.used().len();
    tasks_blank(&state.set.tasks[n..])
        && all_are(&state.planned[n..], &0)
        && jobs_blank(&state.jobs[n..])
}

// The last runner, and zeros in the parts not in use.
#[tactic(auto, using(crate::proofs::Forms::parts))]
fn others_fit(state: &State) -> bool
    ensures { result ≡ others_fit (state_of state.now) }
{
    let n = state.set.used().len();
    last_fits(&state.jobs[..n], state.last) && rest_fits(state)
}

impl<'a> Formed<'a> {
    ghost use Rattle.player.specs.Tested.{Tests};

    // The test of the form: an admissible task set, a live planned position with progress 0 where the period divides the slot, jobs within their
    // patterns, the last runner none or a ready task with a slot given, and zeros in the parts not in use. For a state that has it, where a choice
    // leads.
    #[tactic(auto, using(crate::proofs::Forms::wholes))]
    pub fn test(state: &'a State, choice: u8) -> Result<(Self, Onward), Refusal>
        ensures { Tests state.now choice result }
    {
        let Ok(hyper) = state.set.admit() else {
            return Err(Refusal::BadState);
        };
        if hyper <= state.slot {
            return Err(Refusal::BadState);
        }
        let Some(onward) = look(state, choice) else {
            return Err(Refusal::BadState);
        };
        if others_fit(state) {
            Ok((Formed { state, hyper }, onward))
        } else {
            Err(Refusal::BadState)
        }
    }
}
