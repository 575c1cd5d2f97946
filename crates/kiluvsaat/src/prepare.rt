// What is called before a run: a list read, a set's slots, and a plan. A refusal changes no lent byte.
ghost use Rattle.std.specs.Prelude.{◌≡◌};
ghost use Rattle.list.specs.Reading.{read_list};
ghost use Rattle.planner.specs.Views.{word_of};
ghost use Rattle.kiluvsaat.specs.Plans.{read_number, read_buffer, place_number, slots_number, word_number, PlanCall};

use list::read;
use planner::{Word, plan};
use player::codec::{SET_SIZE, set_from_bytes, write_set};
use tasks::Refusal;

// What one line, and one byte of its start, count in a refused line's place.
const LINE: u64 = 1 << 32;

const START: u64 = 1 << 16;

// A list read: the refusal, or 0 with the task set at the start of `set`.
#[tactic(auto, using(crate::proofs::Listed::read_laws))]
#[unsafe(no_mangle)]
pub extern "C" fn kiluvsaat_read(list: &[u8], set: &mut [u8]) -> u8
    ensures number { result ≡ read_number list.now set.old }
    ensures buffer { set.new ≡ read_buffer list.now set.old }
{
    match read(list) {
        Ok(_) if set.len() < SET_SIZE => Refusal::ShortBuffer.into(),
        Ok(found) => {
            write_set(found, set);
            0
        }
        Err(refused) => refused.why.into(),
    }
}

// Where the refused line of a list stands: its number from bit 32 on, its start from bit 16 on, and its size. 0 where no line is refused.
#[tactic(auto, using(crate::proofs::Listed::place_laws))]
#[unsafe(no_mangle)]
pub extern "C" fn kiluvsaat_refused_line(list: &[u8]) -> u64
    ensures { result ≡ place_number (read_list list.now) }
{
    let Err(refused) = read(list) else {
        return 0;
    };
    let line = refused.line as u64;
    let start = refused.start as u64;
    let size = refused.text.len() as u64;
    line * LINE + start * START + size
}

// The slots of a task set's table: its hyper-period, 0 for a set that is refused or a string of another length.
#[tactic(auto, using(crate::proofs::Planned::slots_length))]
#[unsafe(no_mangle)]
pub extern "C" fn kiluvsaat_slots(set: &[u8]) -> u16
    ensures { result ≡ slots_number set.now }
{
    match set.as_array::<SET_SIZE>() {
        Some(held) => set_from_bytes(held).admit().unwrap_or(0),
        None => 0,
    }
}

// The number of a word. (No From: neither type is this crate's, and the numbers are C's alone.)
#[tactic(auto, unfolding(planner::specs::Views::word_of, crate::specs::Plans::word_number))]
fn word_number(word: Word) -> u8
    ensures { result ≡ word_number (word_of word) }
{
    match word {
        Word::Schedule => 100,
        Word::Infeasible => 101,
        Word::OutOfRoom => 102,
    }
}

// A plan: the refusal, or the word's number with the count of dead positions in `count`. The first slots of `table` hold the schedule, and
// `area` the dead positions.
#[tactic(auto, using(crate::proofs::Planned::plan_laws))]
#[unsafe(no_mangle)]
pub extern "C" fn kiluvsaat_plan(
    set: &[u8],
    table: &mut [u8],
    area: &mut [u16],
    count: &mut u64,
) -> u8
    ensures { PlanCall set.now table.old area.old count.old result table.new area.new count.new }
{
    let Some(held) = set.as_array::<SET_SIZE>() else {
        return Refusal::TaskCount.into();
    };
    match plan(&set_from_bytes(held), table, area) {
        Ok(answer) => {
            *count = answer.dead as u64;
            word_number(answer.word)
        }
        Err(refusal) => refusal.into(),
    }
}
