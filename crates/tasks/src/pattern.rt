// One task as it is handed over: its pattern, and where progress stands in it.
ghost use Rattle.std.specs.Prelude.{◌≡◌, ◌≤◌, ◌%◌, length, get_or, sum};
ghost use Rattle.rules.specs.Tasks.{span, place_of};
ghost use Rattle.rules.specs.Positions.{starts};
ghost use Rattle.tasks.specs.Views.{task_of};

use crate::Task;

// A slot modulo a period. (A period of 0, which no admissible task has, leaves the slot.)
#[tactic(auto, using(crate::proofs::Timing::no_period))]
pub(crate) fn since(period: u16, slot: u32) -> u32
    ensures { result ≡ slot % period }
{
    if period == 0 {
        slot
    } else {
        slot % u32::from(period)
    }
}

// The sum of a pattern.
fn total(units: &[u8]) -> u16
    requires { length units.now ≤ 7 }
    ensures { result ≡ sum units.now }
{
    units.iter().map(|units| u16::from(*units)).sum()
}

// The place in a pattern at which progress stands; the number of entries if it is past them.
#[tactic(auto, using(crate::proofs::OneTask::place_laws))]
pub(crate) fn place_in(entries: &[u8], progress: u16) -> usize
    ensures { result ≡ place_of entries.now progress }
{
    let mut left = u32::from(progress);
    for (place, units) in entries.iter().enumerate() {
        let units = u32::from(*units);
        if left < units {
            return place;
        }
        left -= units;
    }
    entries.len()
}

impl Task {
    // The number of entries in use: 2m - 1, at most the seven of the array.
    pub fn fields(&self) -> usize
        ensures { result ≡ length (task_of self.now).pattern }
    {
        (2 * usize::from(self.steps)).saturating_sub(1).min(7)
    }

    // The entries in use: C E C ..
    pub fn entries(&self) -> &[u8]
        ensures pattern { result.now ≡ (task_of self.now).pattern }
        ensures few { length result.now ≤ 7 }
    {
        &self.pattern[..self.fields()]
    }

    // The units of the entry at place i, 0 beyond the last in use.
    pub fn units_at(&self, i: usize) -> u16
        ensures { result ≡ get_or (task_of self.now).pattern i 0 }
    {
        self.entries().get(i).map_or(0, |units| u16::from(*units))
    }

    // Length L: the sum of the whole pattern.
    pub fn length(&self) -> u16
        ensures { result ≡ span (task_of self.now) }
    {
        total(self.entries())
    }

    // The place in the pattern at which progress stands: 2k is step k + 1, 2k + 1 the wait behind it, and the number of entries is done.
    pub fn place_at(&self, progress: u16) -> usize
        ensures { result ≡ place_of (task_of self.now).pattern progress }
    {
        place_in(self.entries(), progress)
    }

    #[tactic(auto, unfolding(rules::specs::Positions::starts, crate::specs::Views::task_of, crate::specs::Views::entry_of, rules::specs::Records::task_in))]
    // A job starts at this slot: the period divides it.
    pub fn starts_at(&self, slot: u32) -> bool
        ensures { result ≡ starts slot (task_of self.now) }
    {
        since(self.period, slot) == 0
    }
}
