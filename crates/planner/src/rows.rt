// The tasks of a set in rows, which the search reads in place: each with its length and its number of entries at hand.
ghost use Rattle.std.specs.Prelude.{◌≤◌};

use tasks::timed::Timed;
use tasks::{Task, TaskSet};

// The tasks in use, the first `count` of the eight; the others are blank. (An array with its count: it needs no heap.)
#[derive(Clone, Copy)]
pub(crate) struct Rows {
    pub tasks: [Timed; 8],
    pub count: usize,
    ghost few: { count ≤ 8 },
}

impl Rows {
    ghost use Rattle.std.specs.Prelude.{◌≡◌, length, map};
    ghost use Rattle.tasks.specs.Views.{set_of};
    ghost use Rattle.tasks.specs.Timed.{timed_task};
    ghost use Rattle.planner.specs.Rows.{row_tasks};

    // The rows of a set. (An array's `map` is dearer: it misses the bar of planning on short tables.)
    #[tactic(auto, using(crate::proofs::Places::laying_start))]
    pub(crate) fn of(set: &TaskSet) -> Rows
        ensures { row_tasks result ≡ set_of set.now }
    {
        let used = set.used();
        let mut tasks = [Timed::from(Task::default()); 8];
        for (i, task) in used.iter().enumerate() {
            tasks[i] = Timed::from(*task);
        }
        Rows {
            tasks,
            count: used.len(),
        }
    }

    // The tasks in use.
    #[tactic(auto, using(crate::proofs::Places::in_use_laws))]
    pub(crate) fn in_use(&self) -> &[Timed]
        ensures tasks { map timed_task result.now ≡ row_tasks self.now }
        ensures many { length result.now ≡ self.now.count }
    {
        &self.tasks[..self.count]
    }
}
