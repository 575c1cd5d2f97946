// The task set in code: its structs, its refusal, and the arithmetic of positions. Every public function takes any values and has a defined answer.
#![tactic(auto)]

pub mod pattern;
pub mod position;
pub mod refusal;
pub mod set;
pub mod timed;

pub use position::Position;
pub use refusal::Refusal;

// A task: period T, deadline D, m steps, and the pattern C E C .. of which the first 2m - 1 entries are in use.
#[derive(Clone, Copy, Debug, Default, PartialEq, Eq)]
pub struct Task {
    pub period: u16,
    pub deadline: u16,
    pub steps: u8,
    pub pattern: [u8; 7],
}

// A set of tasks, of which the first `count` are in use. (An array with its count: it needs no heap, and travels to C as it is.)
#[derive(Clone, Copy, Debug, Default, PartialEq, Eq)]
pub struct TaskSet {
    pub count: u8,
    pub tasks: [Task; 8],
}

// How progress stands in a pattern.
#[derive(Clone, Copy, Debug, PartialEq, Eq)]
pub enum Standing {
    Ready,
    Waiting,
    Done,
}

// The choice of a slot in which no task runs.
pub const IDLE: u8 = 255;

impl Standing {
    ghost use Rattle.std.specs.Prelude.{◌≡◌};
    ghost use Rattle.rules.specs.Tasks.{is_ready};
    ghost use Rattle.tasks.specs.Views.{standing_of};

    #[tactic(auto, unfolding(rules::specs::Tasks::is_ready, crate::specs::Views::standing_of))]
    // Inside a step.
    pub fn is_ready(self) -> bool
        ensures { result ≡ is_ready (standing_of self) }
    {
        matches!(self, Standing::Ready)
    }
}
