// One task with its length and its number of entries at hand: what progress, the time since release and laxity mean, said once for positions and
// for the planner.
ghost use Rattle.std.specs.Prelude.{◌≡◌, cond, suc, ◌%◌, ◌≤◌, eqb, take};
ghost use Rattle.rules.specs.Tasks.{sum, standing};
ghost use Rattle.rules.specs.Positions.{moved, laxity, in_time};
ghost use Rattle.tasks.specs.Slots.{onward, well_after, well_at};

use crate::pattern::since;
use crate::{Standing, Task};

// A task: period T, deadline D, length L, and the pattern, of which the first entries are in use.
#[derive(Clone, Copy, Debug, PartialEq, Eq)]
pub struct Timed {
    pub period: u16,
    pub deadline: u16,
    pub length: u16,
    pub entries: usize,
    pub pattern: [u8; 7],
    ghost few: { entries ≤ 7 },
    ghost whole: { length ≡ sum (take entries pattern) },
    ghost small: { length ≤ 1785 },
}

// A time since release, counted up to T at the end of a slot. It fits a laxity of 32 bits.
#[derive(Clone, Copy, Debug, PartialEq, Eq)]
pub struct Since {
    pub slots: u32,
    ghost few: { slots ≤ 65536 },
}

// The task of any struct.
impl From<Task> for Timed {
    ghost use Rattle.tasks.specs.Views.{task_of};
    ghost use Rattle.tasks.specs.Timed.{timed_task};

    ghost from_gives = { λ task timed. timed_task timed ≡ task_of task };

    fn from(task: Task) -> Timed {
        let pattern = task.pattern;
        Timed {
            period: task.period,
            deadline: task.deadline,
            length: task.length(),
            entries: task.fields(),
            pattern,
        }
    }
}

// (One task's progress and a slot go by themselves: a `Position` holds the progress of all.)
impl Timed {
    ghost use Rattle.tasks.specs.Views.{standing_of};
    ghost use Rattle.tasks.specs.Timed.{timed_task};

    // Ready inside a step, waiting inside a wait, done at L.
    // (It walks by itself: told by `place_in`, the place is tested twice more, and planning misses its bar.)
    pub fn standing_at(&self, progress: u16) -> Standing
        ensures { standing_of result ≡ standing (timed_task self.now) progress }
    {
        let mut left = u32::from(progress);
        for (place, units) in self.pattern[..self.entries].iter().enumerate() {
            let units = u32::from(*units);
            if left < units {
                return if place % 2 == 0 {
                    Standing::Ready
                } else {
                    Standing::Waiting
                };
            }
            left -= units;
        }
        Standing::Done
    }

    // The time since release at a slot. (A period of 0, which no admissible task has, leaves the slot.)
    #[tactic(auto, using(crate::proofs::Timing::mods), unfolding(crate::specs::Timed::timed_task))]
    pub fn since_release(&self, slot: u32) -> u32
        ensures { result ≡ slot % (timed_task self.now).period }
    {
        since(self.period, slot)
    }

    // The time since release at the start of a slot.
    pub fn since_start(&self, slot: u16) -> Since
        ensures { result.slots ≡ slot % (timed_task self.now).period }
    {
        Since {
            slots: self.since_release(u32::from(slot)),
        }
    }

    // The time since release at the end of a slot. (In the first period nothing has to be divided.)
    #[tactic(auto, using(crate::proofs::Timing::mods), unfolding(crate::specs::Timed::timed_task))]
    pub fn since_end(&self, slot: u16) -> Since
        ensures { result.slots ≡ suc (slot % (timed_task self.now).period) }
    {
        if slot < self.period {
            return Since {
                slots: u32::from(slot) + 1,
            };
        }
        Since {
            slots: self.since_release(u32::from(slot)) + 1,
        }
    }

    // Laxity: the time to the deadline minus the pattern left; it may be below zero.
    #[tactic(auto, unfolding(crate::specs::Timed::timed_task, rules::specs::Positions::laxity, rules::specs::Tasks::span))]
    pub fn laxity_at(&self, since: Since, progress: u16) -> i32
        ensures { result ≡ laxity (timed_task self.now) since.slots progress }
    {
        let time_left = i32::from(self.deadline) - since.slots as i32;
        let pattern_left = i32::from(self.length) - i32::from(progress);
        time_left - pattern_left
    }

    // Done, or of laxity 0 or more.
    #[tactic(auto, using(crate::proofs::Timing::in_times))]
    pub fn in_time(&self, since: Since, progress: u16) -> bool
        ensures { result ≡ in_time since.slots (timed_task self.now) progress }
    {
        self.length <= progress || 0 <= self.laxity_at(since, progress)
    }

    // A job starts again at the end of a slot: the time since release is the period.
    #[tactic(auto, unfolding(crate::specs::Timed::timed_task))]
    fn restarts(&self, since: Since) -> bool
        ensures { result ≡ eqb since.slots (timed_task self.now).period }
    {
        since.slots == u32::from(self.period)
    }

    // The progress in the next slot, from that at the end of a slot: 0 where a job starts again.
    pub fn begun(&self, since: Since, progress: u16) -> u16
        ensures { result ≡ cond (eqb since.slots (timed_task self.now).period) 0 progress }
    {
        if self.restarts(since) { 0 } else { progress }
    }

    // It ends a slot well and begins the next one live, from the progress at the slot's end: in time, and where its job starts again done, with
    // time for the new one. (A task that is done is in time.)
    #[tactic(auto, using(crate::proofs::Timing::wells))]
    pub fn ends_well(&self, since: Since, progress: u16) -> bool
        ensures { result ≡ well_at since.slots (timed_task self.now) progress }
    {
        if self.restarts(since) {
            return self.length <= progress && self.in_time(Since { slots: 0 }, 0);
        }
        self.in_time(since, progress)
    }

    // The progress after a slot: it rises if the task was chosen and ready, or waited.
    #[tactic(auto, using(crate::proofs::Timing::moves))]
    pub fn moved_on(&self, progress: u16, chosen: bool) -> u16
        ensures { result ≡ moved (standing (timed_task self.now) progress) chosen progress }
    {
        match self.standing_at(progress) {
            Standing::Ready => {
                if chosen {
                    return progress + 1;
                }
                progress
            }
            Standing::Waiting => progress + 1,
            Standing::Done => progress,
        }
    }

    // What a slot does: whether the task ends it well and begins the next one live, and its progress then.
    #[tactic(auto, using(crate::proofs::Timing::passes))]
    pub fn pass(&self, slot: u16, progress: u16, chosen: bool) -> Passed
        ensures ending { result.well ≡ well_after slot (timed_task self.now) (moved (standing (timed_task self.now) progress) chosen progress) }
        ensures on { result.progress ≡ onward slot (timed_task self.now) (moved (standing (timed_task self.now) progress) chosen progress) }
    {
        let end = self.moved_on(progress, chosen);
        let since = self.since_end(slot);
        Passed {
            well: self.ends_well(since, end),
            progress: self.begun(since, end),
        }
    }
}

// What a slot does to one task: whether it ends the slot well and begins the next one live, and its progress then. (No Option: the progress is
// told in any case, clause `on`.)
#[derive(Clone, Copy, Debug, PartialEq, Eq)]
pub struct Passed {
    pub well: bool,
    pub progress: u16,
}
