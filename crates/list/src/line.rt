// A line's task, or the refusal that the line is given.
ghost use Rattle.std.specs.Prelude.{◌≡◌, ◌≤◌, IfErr, IfOk, length};
ghost use Rattle.std.specs.Bool.{OnTrue};
ghost use Rattle.tasks.specs.Refusals.{number_of};
ghost use Rattle.tasks.specs.Views.{entry_of};
ghost use Rattle.list.specs.Reading.{right_count, line_task, line_refusal};
ghost use Rattle.list.specs.Inner.{units_of};

use crate::fields::line_fields;
use tasks::{Refusal, Task};

// The number of fields of a task: T, D and the steps with the waits between them.
#[tactic(auto, unfolding(crate::specs::Reading::right_count))]
fn right_count(n: usize) -> bool
    ensures count { result ≡ right_count n }
    ensures within { OnTrue result ((3 ≤ n) × (n ≤ 9)) }
{
    matches!(n, 3 | 5 | 7 | 9)
}

// The units as bytes with zeros behind them, if each is a byte.
fn pattern_of(units: &[u16]) -> Option<[u8; 7]>
    requires { length units.now ≤ 7 }
    ensures { result ≡ units_of units.now }
{
    let mut pattern = [0; 7];
    for (i, unit) in units.iter().enumerate() {
        pattern[i] = u8::try_from(*unit).ok()?;
    }
    Some(pattern)
}

// A line that isn't skipped, as if it were the first: 2, then 3, then 4. The numbers are tested before they become bytes.
#[tactic(auto, using(crate::proofs::OneLine::line_laws))]
pub fn line_task(line: &[u8]) -> Result<Task, Refusal>
    ensures good { IfOk result (λ task. (line_refusal 0 line.now ≡ 0) × (entry_of task ≡ line_task line.now)) }
    ensures refused { IfErr result (λ refusal. line_refusal 0 line.now ≡ number_of refusal) }
{
    let fields = line_fields(line).ok_or(Refusal::Malformed)?;
    let numbers = fields.as_slice();
    if !right_count(numbers.len()) {
        return Err(Refusal::Malformed);
    }
    let task = Task {
        period: numbers[0],
        deadline: numbers[1],
        steps: ((numbers.len() - 1) / 2) as u8,
        pattern: pattern_of(&numbers[2..]).ok_or(Refusal::OutOfRange)?,
    };
    task.admit()?;
    Ok(task)
}
