// The set's hyper-period and its refusal.
ghost use Rattle.std.specs.Prelude.{◌≡◌, ◌&&◌, map, min, take, OnOk, IfErr, IfOk};
ghost use Rattle.rules.specs.Hyper.{gcd, lcm, hyper};
ghost use Rattle.rules.specs.Records.{between, all_between, task_refusal, tasks_refusal, used, record_refusal};
ghost use Rattle.tasks.specs.Refusals.{number_of, number_in};
ghost use Rattle.tasks.specs.Views.{entry_of, record_of, task_of, set_of, within, joined};

use crate::{Refusal, Task, TaskSet};

// The greatest common divisor, by recursion on a falling remainder.
fn divisor(a: u32, b: u32) -> u32
    ensures { result ≡ gcd a b }
{
    if b == 0 { a } else { divisor(b, a % b) }
}

#[tactic(auto, using(crate::proofs::Multiple::multiple_laws))]
// The least common multiple, if it is at most 4,096.
pub fn multiple(a: u16, b: u16) -> Option<u16>
    ensures { result ≡ within (lcm a b) }
{
    if a == 0 {
        return Some(0);
    }
    let a = u32::from(a);
    let b = u32::from(b);
    let m = a / divisor(a, b) * b;
    if 4096 < m {
        return None;
    }
    Some(m as u16)
}

#[tactic(auto, using(crate::proofs::Multiple::joined_laws))]
// A period with the multiple of those behind it. Where the period is 0, so is the multiple.
fn joined(period: u16, behind: Option<u16>) -> Option<u16>
    ensures { result ≡ joined period behind }
{
    if period == 0 {
        return Some(0);
    }
    multiple(period, behind?)
}

// A period or a deadline in its range.
#[tactic(auto, unfolding(rules::specs::Records::between))]
fn is_time(x: u16) -> bool
    ensures { result ≡ between 1 4096 x }
{
    (1..=4096).contains(&x)
}

// Every entry is 1 or more. (A byte is 255 at most.)
fn all_given(units: &[u8]) -> bool
    ensures { result ≡ all_between 1 255 units.now }
{
    !units.contains(&0)
}

impl Task {
    // The number of steps is in its range.
    #[tactic(auto, unfolding(rules::specs::Records::between))]
    fn has_steps(&self) -> bool
        ensures { result ≡ between 1 4 self.now.steps }
    {
        (1..=4).contains(&self.steps)
    }

    // Every other number is in its range.
    fn in_range(&self) -> bool
        ensures { result ≡ between 1 4096 self.now.period && (between 1 4096 self.now.deadline && all_between 1 255 (task_of self.now).pattern) }
    {
        is_time(self.period) && is_time(self.deadline) && all_given(self.entries())
    }

    // Whether the task is admissible; else 2, 3 or 4.
    #[tactic(auto, using(crate::proofs::Refusals::task_laws))]
    pub fn admit(&self) -> Result<(), Refusal>
        ensures admitted { OnOk result (task_refusal (entry_of self.now) ≡ 0) }
        ensures refused { IfErr result (λ refusal. task_refusal (entry_of self.now) ≡ number_of refusal) }
    {
        if !self.has_steps() {
            return Err(Refusal::Malformed);
        }
        if !self.in_range() {
            return Err(Refusal::OutOfRange);
        }
        if self.period < self.deadline {
            return Err(Refusal::LateDeadline);
        }
        Ok(())
    }
}

// The judgement on a set: its refusal, if it has one, and its hyper-period, if that is at most 4,096. (No Result: the hyper-period is told of a
// refused set too, clause `period`.)
#[derive(Clone, Copy, Debug, PartialEq, Eq)]
pub struct Judged {
    pub refusal: Option<Refusal>,
    pub hyper: Option<u16>,
}

impl TaskSet {
    // The tasks in use, at most the eight of the array.
    pub fn used(&self) -> &[Task]
        ensures tasks { map task_of result.now ≡ set_of self.now }
        ensures entries { map entry_of result.now ≡ used (record_of self.now) }
        ensures first { result.now ≡ take (min self.now.count 8) self.now.tasks }
    {
        &self.tasks[..usize::from(self.count).min(8)]
    }

    #[tactic(auto, using(crate::proofs::Multiple::hyper_laws))]
    // The hyper-period, if it is at most 4,096: from the last task to the first.
    pub fn hyper_period(&self) -> Option<u16>
        ensures { result ≡ within (hyper (set_of self.now)) }
    {
        let used = self.used();
        let mut hyper = Some(1);
        // (By place: over `iter().rev()` the check learns nothing of the items.)
        for i in (0..used.len()).rev() {
            hyper = joined(used[i].period, hyper);
        }
        hyper
    }

    #[tactic(auto, using(crate::proofs::Refusals::first_laws))]
    // The first refusal among the tasks in use.
    fn admit_tasks(&self) -> Result<(), Refusal>
        ensures admitted { OnOk result (tasks_refusal (used (record_of self.now)) ≡ 0) }
        ensures refused { IfErr result (λ refusal. tasks_refusal (used (record_of self.now)) ≡ number_of refusal) }
    {
        for task in self.used() {
            task.admit()?;
        }
        Ok(())
    }

    // The number of tasks is in its range.
    #[tactic(auto, unfolding(rules::specs::Records::between))]
    fn has_count(&self) -> bool
        ensures { result ≡ between 1 8 self.now.count }
    {
        (1..=8).contains(&self.count)
    }

    #[tactic(auto, using(crate::proofs::Refusals::set_laws))]
    // The hyper-period of an admissible set; else 5, the first of 2, 3 and 4 among its tasks, or 6.
    pub fn admit(&self) -> Result<u16, Refusal>
        ensures admitted { IfOk result (λ hyper. (record_refusal (record_of self.now) ≡ 0) × (hyper ≡ Rattle.rules.specs.Hyper.hyper (set_of self.now))) }
        ensures refused { IfErr result (λ refusal. record_refusal (record_of self.now) ≡ number_of refusal) }
    {
        if !self.has_count() {
            return Err(Refusal::TaskCount);
        }
        self.admit_tasks()?;
        self.hyper_period().ok_or(Refusal::HyperTooLong)
    }

    // The set's refusal, and its hyper-period whether it is refused or not.
    pub fn judge(&self) -> Judged
        ensures refused { number_in result.refusal ≡ record_refusal (record_of self.now) }
        ensures period { result.hyper ≡ within (hyper (set_of self.now)) }
    {
        Judged {
            refusal: self.admit().err(),
            hyper: self.hyper_period(),
        }
    }
}
