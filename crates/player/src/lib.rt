// The player: it follows a table slot by slot. A state goes in by value and comes back by value.
#![tactic(auto)]

use tasks::{IDLE, Refusal, TaskSet};

pub mod begin;
pub mod codec;
pub mod form;
pub mod round;
pub mod strings;
pub mod turn;

ghost use Rattle.std.specs.Prelude.{◌≡◌, IfErr, IfOk, None, get_or, true};
ghost use Rattle.rules.specs.Positions.{idle};
ghost use Rattle.rules.specs.States.{start_reply, tick_reply};
ghost use Rattle.tasks.specs.Views.{record_of};
ghost use Rattle.player.specs.Views.{IsTask, state_of};
ghost use Rattle.player.specs.Answers.{start_answer, started_of, tick_answer, ticked_of, with_state};

use begin::{fresh_state, is_live};
use form::Formed;
use round::{TurnsTaken, slot_after};
use tasks::position::Onward;

// Why a job was stopped.
#[derive(Clone, Copy, Debug, PartialEq, Eq)]
pub enum Cause {
    Overrun,
    Late,
    Untrue,
}

// How a job stands.
#[derive(Clone, Copy, Debug, Default, PartialEq, Eq)]
pub enum Stand {
    #[default]
    Ready,
    Waiting,
    Done,
    Stopped(Cause),
}

// A task's job: how it stands, its step from 0, and the slots given in that step. Parts not in use are zero.
#[derive(Clone, Copy, Debug, Default, PartialEq, Eq)]
pub struct Job {
    pub stand: Stand,
    pub step: u8,
    pub given: u8,
}

// (Arrays side by side: the form of a state is named so, and C has it so.)
// The player's state: the task set, the slot, the planned progress and the job of each task, and who ran last.
#[derive(Clone, Copy, Debug, Default, PartialEq, Eq)]
pub struct State {
    pub set: TaskSet,
    pub slot: u16,
    pub planned: [u16; 8],
    pub jobs: [Job; 8],
    pub last: Option<u8>,
}

// What a tick gives: who runs, the fault of each task that was stopped just now, and the new state.
#[derive(Clone, Copy, Debug, Default, PartialEq, Eq)]
pub struct Ticked {
    pub runner: Option<u8>,
    pub faults: [Option<Cause>; 8],
    pub state: State,
}

// What a tick tells beside the new state: who runs, and the fault of each task that was stopped just now.
#[derive(Clone, Copy, Debug, Default, PartialEq, Eq)]
pub struct Told {
    pub runner: Option<u8>,
    pub faults: [Option<Cause>; 8],
}

// A start with a task set and a table: the set's refusals, then 12 if the table isn't a schedule of the set's hyper-period.
pub fn start(set: &TaskSet, table: &[u8]) -> Result<State, Refusal>
    ensures reply { started_of result ≡ start_answer (start_reply (record_of set.now) table.now true) }
    ensures nobody { IfOk result (λ state. state.last ≡ None) }
{
    let hyper = set.admit()?;
    if table.len() != usize::from(hyper) || !is_live(set, table) {
        return Err(Refusal::BadTable);
    }
    Ok(fresh_state(set))
}

// The table's entry at a slot; idle beyond its end.
#[tactic(auto, unfolding(rules::specs::Positions::idle))]
fn entry_at(table: &[u8], slot: u16) -> u8
    ensures { result ≡ get_or table.now slot idle }
{
    table.get(usize::from(slot)).map_or(IDLE, |entry| *entry)
}

impl State {
    // A tick in place: 10 for a state not of the form, 11 for another number of reports, 12 for a table of another length or an entry that isn't an
    // allowed choice to a live position. A refused tick leaves the state.
    pub(crate) fn follow(&mut self, table: &[u8], reports: &[u8]) -> Result<Told, Refusal>
        ensures reply { ticked_of (state_of self.old) (with_state self.new result) ≡ tick_answer (state_of self.old) (tick_reply (state_of self.old) table.now reports.now true) }
        ensures kept { IfErr result (λ _. self.new ≡ self.old) }
        ensures task { IfOk result (λ told. IsTask told.runner × (self.new.last ≡ told.runner)) }
    {
        let (formed, onward) = Formed::test(&*self, entry_at(table, self.slot))?;
        let Onward { legal, progress } = onward;
        if reports.len() != usize::from(self.set.count) {
            return Err(Refusal::ReportCount);
        }
        if table.len() != usize::from(formed.hyper) {
            return Err(Refusal::BadTable);
        }
        if !legal {
            return Err(Refusal::BadTable);
        }
        let TurnsTaken {
            jobs,
            faults,
            runner,
        } = formed.turns(table, reports);
        let slot = slot_after(self.slot, formed.hyper);
        self.slot = slot;
        self.planned = progress;
        self.jobs = jobs;
        self.last = runner;
        Ok(Told { runner, faults })
    }
}

// A tick with the table and one report for each task about the slot just ended: 10 for a state not of the form, 11 for another number of
// reports, 12 for a table of another length or an entry that isn't an allowed choice to a live position.
pub fn tick(state: State, table: &[u8], reports: &[u8]) -> Result<Ticked, Refusal>
    ensures reply { ticked_of (state_of state) result ≡ tick_answer (state_of state) (tick_reply (state_of state) table.now reports.now true) }
    ensures task { IfOk result (λ ticked. IsTask ticked.runner × (ticked.state.last ≡ ticked.runner)) }
{
    let mut state = state;
    let Told { runner, faults } = state.follow(table, reports)?;
    Ok(Ticked {
        runner,
        faults,
        state,
    })
}
