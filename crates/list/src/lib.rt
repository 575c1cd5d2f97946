// The reader of task lists.
#![tactic(auto)]

ghost use Rattle.std.specs.Prelude.{List, [], ◌∷◌, ◌++◌, ◌≡◌, ◌<◌, IfErr, IfOk, OnOk, Ok};
ghost use Rattle.rules.specs.Records.{TaskRecord};
ghost use Rattle.tasks.specs.Refusals.{number_of};
ghost use Rattle.tasks.specs.Views.{entry_of, record_of};
ghost use Rattle.list.specs.Reading.{reply_of, accepted, finish, read_list, refused_whole, shown};
ghost use Rattle.list.specs.Inner.{BlamesNoLine, refusal_after, tasks_after};

use crate::line::line_task;
use crate::text::{first_line, is_skipped};
use tasks::{Refusal, Task, TaskSet};

mod fields;
mod line;
mod numbers;
mod text;

// The most bytes of a list, and the most tasks of a set.
const MOST_BYTES: usize = 4096;

const MOST_TASKS: u8 = 8;

// Why a list is refused, and the refused line: its number from 1, where it starts in the list, and its text. Where no line is to blame, the line is 0 and its text an empty one at 0.
#[derive(Clone, Copy, Debug, PartialEq, Eq)]
pub struct Refused<'a> {
    pub why: Refusal,
    pub line: usize,
    pub start: usize,
    pub text: &'a [u8],
}

// A refusal for which no line is to blame.
impl From<Refusal> for Refused<'_> {
    ghost from_gives = { BlamesNoLine };

    fn from(why: Refusal) -> Self {
        Refused {
            why,
            line: 0,
            start: 0,
            text: &[],
        }
    }
}

// One task more in the set that has read `rs`.
#[tactic(auto, using(crate::proofs::Sets::set_more))]
fn add_task(set: &mut TaskSet, task: Task)
    requires { set.old.count < MOST_TASKS }
    ensures { (rs : List TaskRecord) → record_of set.old ≡ (accepted rs).set → record_of set.new ≡ (accepted (rs ++ entry_of task ∷ [])).set }
{
    set.tasks[usize::from(set.count)] = task;
    set.count += 1;
}

// A line, after the set that has read `rs`. A ninth task is 5 whatever its line holds.
#[tactic(auto, using(crate::proofs::Sets::set_laws))]
fn after_line(set: &mut TaskSet, line: &[u8]) -> Result<(), Refusal>
    ensures good { (rs : List TaskRecord) → record_of set.old ≡ (accepted rs).set → OnOk result ((refusal_after rs line.now ≡ 0) × (record_of set.new ≡ (accepted (tasks_after rs line.now)).set)) }
    ensures refused { (rs : List TaskRecord) → record_of set.old ≡ (accepted rs).set → IfErr result (λ refusal. refusal_after rs line.now ≡ number_of refusal) }
{
    if is_skipped(line) {
        return Ok(());
    }
    if MOST_TASKS <= set.count {
        return Err(Refusal::TaskCount);
    }
    let task = line_task(line)?;
    add_task(set, task);
    Ok(())
}

// The end of a list, after the set that has read `rs`: 5 if there is no task, 6 by the hyper-period.
#[tactic(auto, using(crate::proofs::Sets::end_laws))]
fn finish(set: TaskSet) -> Result<TaskSet, Refusal>
    ensures good { (rs : List TaskRecord) → record_of set ≡ (accepted rs).set → IfOk result (λ more. finish rs ≡ reply_of (Ok more)) }
    ensures refused { (rs : List TaskRecord) → record_of set ≡ (accepted rs).set → IfErr result (λ refusal. finish rs ≡ refused_whole (number_of refusal)) }
{
    if set.count == 0 {
        return Err(Refusal::TaskCount);
    }
    if set.hyper_period().is_none() {
        return Err(Refusal::HyperTooLong);
    }
    Ok(set)
}

// The set of a list, read line by line, the first bad line deciding.
#[tactic(auto, using(crate::proofs::ByLines::list_laws))]
pub fn read(list: &[u8]) -> Result<TaskSet, Refused<'_>>
    ensures reply { reply_of result ≡ read_list list.now }
    ensures text { IfErr result (λ e. e.text.now ≡ shown list.now (read_list list.now)) }
{
    if MOST_BYTES < list.len() {
        return Err(Refusal::ListTooLong.into());
    }
    let mut set = TaskSet::default();
    let mut line = 1;
    let mut rest = list;
    // (No `for` over the lines: C asks where a line starts, which what is left tells without counting.)
    while !rest.is_empty() {
        let start = list.len() - rest.len();
        let (text, behind) = first_line(rest);
        // (No `map_err` and `?`: the closure's clause stays folded in the loop's goals.)
        if let Err(why) = after_line(&mut set, text) {
            return Err(Refused {
                why,
                line,
                start,
                text,
            });
        }
        line += 1;
        rest = behind;
    }
    Ok(finish(set)?)
}

// The refused line as it stands in the list, without its line feed; an empty part where no line is refused.
#[tactic(auto, using(crate::proofs::ByLines::shown_none))]
pub fn refused_line(list: &[u8]) -> &[u8]
    ensures { result.now ≡ shown list.now (read_list list.now) }
{
    match read(list) {
        Ok(_) => &[],
        Err(e) => e.text,
    }
}
