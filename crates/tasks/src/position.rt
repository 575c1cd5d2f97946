// Positions: which are live, what a slot does, restarting, and choices that lead on.
ghost use Rattle.std.specs.Prelude.{◌≡◌, ◌&&◌, ◌≤◌};
ghost use Rattle.rules.specs.Positions.{allowed, next, live_position, legal};
ghost use Rattle.tasks.specs.Views.{set_of, progress_of, position_of, array_of};

use crate::timed::Timed;
use crate::{IDLE, TaskSet};

// A slot, and the progress of each task at its start.
#[derive(Clone, Copy, Debug, PartialEq, Eq)]
pub struct Position {
    pub slot: u16,
    pub progress: [u16; 8],
}

// Where a choice leads: whether it is an allowed choice to a live position, and the progress after it. (No Option: the progress is told of every
// choice, clause `lands`.)
#[derive(Clone, Copy, Debug, PartialEq, Eq)]
pub struct Onward {
    pub legal: bool,
    pub progress: [u16; 8],
}

impl TaskSet {
    // A live position: every task in use that isn't done has laxity 0 or more.
    pub fn is_live(&self, at: &Position) -> bool
        ensures { result ≡ live_position (set_of self.now) (position_of self.now at.now.slot at.now.progress) }
    {
        // (No `zip` and `all`: what such a chain answers stays open.)
        for (i, task) in self.used().iter().enumerate() {
            let task = Timed::from(*task);
            if !task.in_time(task.since_start(at.slot), at.progress[i]) {
                return false;
            }
        }
        true
    }

    // The choice is idle or a ready task.
    pub fn may_choose(&self, progress: &[u16; 8], choice: u8) -> bool
        ensures { result ≡ allowed (set_of self.now) (progress_of self.now progress.now) choice }
    {
        if choice == IDLE {
            return true;
        }
        let used = self.used();
        let i = usize::from(choice);
        i < used.len() && Timed::from(used[i]).standing_at(progress[i]).is_ready()
    }

    // Where a choice, a byte of a table, leads from a position.
    pub fn advance(&self, at: &Position, choice: u8) -> Onward
        ensures leads { result.legal ≡ legal (set_of self.now) (position_of self.now at.now.slot at.now.progress) choice }
        ensures lands { result.progress ≡ array_of (next (set_of self.now) (position_of self.now at.now.slot at.now.progress) choice).progress }
    {
        let mut legal = self.may_choose(&at.progress, choice);
        let mut progress = [0u16; 8];
        for (i, task) in self.used().iter().enumerate() {
            let passed = Timed::from(*task).pass(at.slot, at.progress[i], usize::from(choice) == i);
            progress[i] = passed.progress;
            legal = legal && passed.well;
        }
        Onward { legal, progress }
    }
}
