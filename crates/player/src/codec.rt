// A task set and a player state as byte strings. This module alone knows their sizes and places.
ghost use Rattle.std.specs.Prelude.{◌≡◌, cond, ◌↔◌, ◌++◌, ◌+◌, ◌<◌, ◌≤◌, IsSome, IfSome, leb, length, drop, map, slice_index, true};
ghost use Rattle.std.proofs.lemmas.List.Edits.{sets};
ghost use Rattle.rules.specs.States.{blank_set};
ghost use Rattle.tasks.specs.Views.{entry_of, record_of};
ghost use Rattle.player.specs.Views.{stand_of, job_of, eight, jobs_of, runner_number, state_of};
ghost use Rattle.player.specs.Standings.{StandIn};
ghost use Rattle.player.specs.Bytes.{task_bytes, set_bytes, stand_byte, job_bytes, pair, state_bytes, task_at, set_at, job_at, state_at, readable};

use crate::{Cause, Job, Stand, State};
use tasks::{IDLE, Refusal, Task, TaskSet};

// A number of 16 bits.
const NUMBER_SIZE: usize = 2;

// A task: its period, its deadline, its count of steps, and seven units.
const TASK_SIZE: usize = 2 * NUMBER_SIZE + 8;

// A job: its standing, its step, and the slots given in it.
const JOB_SIZE: usize = 3;

// A set: its count, and then eight tasks.
const TASKS: usize = 1;

pub const SET_SIZE: usize = TASKS + 8 * TASK_SIZE;

// A state: its set, and then its slot, the planned progress of eight tasks, their jobs, and who ran last.
const SLOT: usize = SET_SIZE;

const PLANNED: usize = SLOT + NUMBER_SIZE;

const JOBS: usize = PLANNED + 8 * NUMBER_SIZE;

const LAST: usize = JOBS + 8 * JOB_SIZE;

pub const STATE_SIZE: usize = LAST + 1;

// ── standings and jobs ──────────────────────────────────────────────────────

// The byte of a standing.
impl From<Stand> for u8 {
    ghost from_gives = { λ stand byte. byte ≡ stand_byte (stand_of stand) };

    #[tactic(auto, unfolding(crate::specs::Views::stand_of, crate::specs::Views::cause_of, crate::specs::Bytes::stand_byte))]
    fn from(stand: Stand) -> u8 {
        match stand {
            Stand::Ready => 0,
            Stand::Waiting => 1,
            Stand::Done => 2,
            Stand::Stopped(Cause::Overrun) => 3,
            Stand::Stopped(Cause::Late) => 4,
            Stand::Stopped(Cause::Untrue) => 5,
        }
    }
}

// The standing of a byte; above 5 there is none, so no state has the string.
impl TryFrom<u8> for Stand {
    type Error = Refusal;

    ghost try_from_gives = { StandIn };

    #[tactic(auto, unfolding(crate::specs::Views::stand_of, crate::specs::Views::cause_of, crate::specs::Bytes::stand_of_byte))]
    fn try_from(byte: u8) -> Result<Stand, Refusal> {
        match byte {
            0 => Ok(Stand::Ready),
            1 => Ok(Stand::Waiting),
            2 => Ok(Stand::Done),
            3 => Ok(Stand::Stopped(Cause::Overrun)),
            4 => Ok(Stand::Stopped(Cause::Late)),
            5 => Ok(Stand::Stopped(Cause::Untrue)),
            _ => Err(Refusal::BadState),
        }
    }
}

impl Job {
    // The job that bytes hold, unless their standing is none.
    #[tactic(auto, unfolding(crate::specs::Views::job_of, crate::specs::Bytes::job_at))]
    fn from_bytes(bytes: &[u8; JOB_SIZE]) -> Option<Self>
        ensures known { IsSome result ↔ (slice_index bytes.now 0 ≤ 5) }
        ensures value { IfSome result (λ job. job_of job ≡ job_at bytes.now 0) }
    {
        let [stand, step, given] = *bytes;
        let stand = Stand::try_from(stand).ok()?;
        Some(Job { stand, step, given })
    }

    // The bytes that hold the job.
    #[tactic(auto, unfolding(crate::specs::Views::job_of, crate::specs::Bytes::job_bytes))]
    fn to_bytes(&self) -> [u8; JOB_SIZE]
        ensures { result ≡ job_bytes (job_of self.now) }
    {
        [self.stand.into(), self.step, self.given]
    }
}

// The jobs in a state's string, unless a standing is none.
fn jobs_in(bytes: &[u8; STATE_SIZE]) -> Option<[Job; 8]>
    ensures readable { IsSome result ↔ (readable bytes.now ≡ true) }
    ensures value { IfSome result (λ jobs. jobs_of jobs ≡ (state_at bytes.now).jobs) }
{
    let (held, _) = bytes[JOBS..LAST].as_chunks::<JOB_SIZE>();
    let mut jobs = [Job::default(); 8];
    // (A loop, since `?` leaves from it.)
    for i in 0..8 {
        jobs[i] = Job::from_bytes(&held[i])?;
    }
    Some(jobs)
}

// The bytes of each job. (A loop, here and below: of `jobs.map(|job| job.to_bytes())` the check learns the length and nothing more.)
#[tactic(auto, using(crate::proofs::Pieces::piece_laws), unfolding(crate::specs::Views::jobs_of))]
fn jobs_to_bytes(jobs: &[Job; 8]) -> [[u8; JOB_SIZE]; 8]
    ensures { result ≡ map job_bytes (jobs_of jobs.now) }
{
    let mut held = [[0; JOB_SIZE]; 8];
    for i in 0..8 {
        held[i] = jobs[i].to_bytes();
    }
    held
}

// ── planned progress ────────────────────────────────────────────────────────

// The planned progress in a state's string.
fn planned_in(bytes: &[u8; STATE_SIZE]) -> [u16; 8]
    ensures { eight result ≡ (state_at bytes.now).planned }
{
    let (held, _) = bytes[PLANNED..JOBS].as_chunks::<NUMBER_SIZE>();
    let mut planned = [0; 8];
    for i in 0..8 {
        planned[i] = u16::from_le_bytes(held[i]);
    }
    planned
}

// The bytes of each number.
#[tactic(auto, using(crate::proofs::Pieces::piece_laws), unfolding(crate::specs::Views::eight, crate::specs::Bytes::pair, crate::specs::Bytes::low, crate::specs::Bytes::high))]
fn planned_to_bytes(planned: &[u16; 8]) -> [[u8; NUMBER_SIZE]; 8]
    ensures { result ≡ map pair (eight planned.now) }
{
    let mut held = [[0; NUMBER_SIZE]; 8];
    for i in 0..8 {
        held[i] = planned[i].to_le_bytes();
    }
    held
}

// ── tasks and sets ──────────────────────────────────────────────────────────

// The task that bytes hold.
#[tactic(auto, unfolding(tasks::specs::Views::entry_of, crate::specs::Bytes::pair_at, crate::specs::Bytes::task_at, rules::specs::Lists::tabulate))]
fn task_from_bytes(bytes: &[u8; TASK_SIZE]) -> Task
    ensures { entry_of result ≡ task_at bytes.now 0 }
{
    let [t0, t1, d0, d1, steps, c1, e1, c2, e2, c3, e3, c4] = *bytes;
    Task {
        period: u16::from_le_bytes([t0, t1]),
        deadline: u16::from_le_bytes([d0, d1]),
        steps,
        pattern: [c1, e1, c2, e2, c3, e3, c4],
    }
}

// The bytes that hold a task.
#[tactic(auto, unfolding(tasks::specs::Views::entry_of, crate::specs::Bytes::pair, crate::specs::Bytes::low, crate::specs::Bytes::high, crate::specs::Bytes::task_bytes, rules::specs::Lists::tabulate))]
fn task_to_bytes(task: &Task) -> [u8; TASK_SIZE]
    ensures { result ≡ task_bytes (entry_of task.now) }
{
    let [t0, t1] = task.period.to_le_bytes();
    let [d0, d1] = task.deadline.to_le_bytes();
    let [c1, e1, c2, e2, c3, e3, c4] = task.pattern;
    [t0, t1, d0, d1, task.steps, c1, e1, c2, e2, c3, e3, c4]
}

// The task set that a string holds.
pub fn set_from_bytes(bytes: &[u8; SET_SIZE]) -> TaskSet
    ensures { record_of result ≡ set_at bytes.now }
{
    let (held, _) = bytes[TASKS..].as_chunks::<TASK_SIZE>();
    let mut tasks = [Task::default(); 8];
    for i in 0..8 {
        tasks[i] = task_from_bytes(&held[i]);
    }
    TaskSet {
        count: bytes[0],
        tasks,
    }
}

// The string that holds a task set.
fn set_to_bytes(set: &TaskSet) -> [u8; SET_SIZE]
    ensures { result ≡ set_bytes (record_of set.now) }
{
    let mut held = [[0; TASK_SIZE]; 8];
    for i in 0..8 {
        held[i] = task_to_bytes(&set.tasks[i]);
    }
    let mut out = [0; SET_SIZE];
    out[0] = set.count;
    out[TASKS..].copy_from_slice(held.as_flattened());
    out
}

// The task set at the start of a string; a blank one if the string is shorter than a set's.
#[tactic(auto, using(crate::proofs::Defaults::set_default, crate::proofs::Pieces::set_start))]
pub fn set_in(bytes: &[u8]) -> TaskSet
    ensures held { 97 ≤ length bytes.now → record_of result ≡ set_at bytes.now }
    ensures short { length bytes.now < 97 → record_of result ≡ blank_set }
{
    match bytes.first_chunk::<SET_SIZE>() {
        Some(held) => set_from_bytes(held),
        None => TaskSet::default(),
    }
}

// A task set, put at the start of a string; a string shorter than a set's is left as it is. Not inlined: its room is not to be taken while
// a list is read, whose stack the header bounds.
#[inline(never)]
#[tactic(auto, using(crate::proofs::Pieces::cond_room))]
pub fn write_set(set: TaskSet, out: &mut [u8])
    ensures { out.new ≡ cond (leb 97 (length out.old)) (set_bytes (record_of set) ++ drop 97 out.old) out.old }
{
    if let Some(place) = out.first_chunk_mut::<SET_SIZE>() {
        *place = set_to_bytes(&set);
    }
}

// ── states ──────────────────────────────────────────────────────────────────

// Who ran last, by a state's last byte.
fn last_from(byte: u8) -> Option<u8>
    ensures number { runner_number result ≡ byte }
    ensures task { IfSome result (λ i. i < 255) }
{
    if byte == IDLE { None } else { Some(byte) }
}

// A part of a state's string, put at its place.
fn put(part: &[u8], out: &mut [u8; STATE_SIZE], at: usize)
    requires { at + length part.now ≤ 140 }
    ensures { out.new ≡ sets out.old at part.now }
{
    out[at..at + part.len()].copy_from_slice(part);
}

impl State {
    // The state that a string holds, unless a job's standing is none.
    pub fn from_bytes(bytes: &[u8; STATE_SIZE]) -> Option<Self>
        ensures readable { IsSome result ↔ (readable bytes.now ≡ true) }
        ensures value { IfSome result (λ state. state_of state ≡ state_at bytes.now) }
        ensures task { IfSome result (λ state. IfSome state.last (λ i. i < 255)) }
    {
        Some(State {
            jobs: jobs_in(bytes)?,
            set: set_in(bytes),
            slot: u16::from_le_bytes([bytes[SLOT], bytes[SLOT + 1]]),
            planned: planned_in(bytes),
            last: last_from(bytes[LAST]),
        })
    }

    // The string that holds the state.
    pub fn to_bytes(&self) -> [u8; STATE_SIZE]
        ensures { result ≡ state_bytes (state_of self.now) }
    {
        let mut out = [0; STATE_SIZE];
        put(&set_to_bytes(&self.set), &mut out, 0);
        put(&self.slot.to_le_bytes(), &mut out, SLOT);
        put(
            planned_to_bytes(&self.planned).as_flattened(),
            &mut out,
            PLANNED,
        );
        put(jobs_to_bytes(&self.jobs).as_flattened(), &mut out, JOBS);
        out[LAST] = self.last.unwrap_or(IDLE);
        out
    }
}
