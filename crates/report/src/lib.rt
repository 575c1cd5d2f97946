// What the program `plan` writes, made on slices.
#![tactic(auto)]

ghost use Rattle.std.specs.Prelude.{◌≡◌, Ok};
ghost use Rattle.planner.specs.Views.{answer_of};
ghost use Rattle.report.specs.Adds.{Adds};
ghost use Rattle.report.specs.Put.{PutCut};
ghost use Rattle.report.specs.Help.{explanation};
ghost use Rattle.report.specs.Reports.{answer_text, Tellable, Reported};

use crate::help::{put_place, sentence};
use crate::write::Text;
use list::read;
use planner::{Answer, Word, plan};

mod help;
mod write;

// The bytes of a table that holds every schedule, and of an `out` that holds every text.
pub const TABLE: usize = 4096;

pub const OUT: usize = 4300;

// The text for an answer, with h slots of the table.
fn put_answer(text: &mut Text<'_>, h: u16, answer: Answer, table: &[u8])
    requires { Tellable h (answer_of (Ok answer)) table.now }
    ensures { Adds text.old (answer_text h (answer_of (Ok answer)) table.now) text.new }
{
    let dead = answer.dead as u64;
    match answer.word {
        Word::Schedule => {
            text.line(b"schedule", &[u64::from(h), dead]);
            text.slots(&table[..usize::from(h)]);
        }
        Word::Infeasible => text.line(b"infeasible", &[dead]),
        Word::OutOfRoom => text.line(b"out-of-room", &[dead]),
    }
}

// The program's text for a list, at the start of `out`: its length. A table shorter than 4,096 or an `out` shorter than 4,300 bytes gets 0, and nothing is changed.
pub fn report(list: &[u8], table: &mut [u8], area: &mut [u16], out: &mut [u8]) -> usize
    ensures { Reported list.now table.old area.old out.old result table.new area.new out.new }
{
    if table.len() < TABLE || out.len() < OUT {
        return 0;
    }
    let mut text = Text::new(out);
    let set = match read(list) {
        Ok(set) => set,
        Err(e) => {
            text.line(b"refused", &[u64::from(u8::from(e.why)), e.line as u64]);
            return text.end;
        }
    };
    // A set that is read has both.
    let Some(h) = set.hyper_period() else {
        return text.end;
    };
    let Ok(answer) = plan(&set, table, area) else {
        return text.end;
    };
    put_answer(&mut text, h, answer, table);
    text.end
}

// What is wrong with a refused list, as far as there is room: the length written, 0 for a list that is accepted.
pub fn explain(list: &[u8], out: &mut [u8]) -> usize
    ensures { PutCut out.old 0 (explanation list.now) result out.new }
{
    let Err(e) = read(list) else {
        return 0;
    };
    let mut text = Text::new(out);
    text.word(sentence(e.why));
    if e.line == 0 {
        return text.end;
    }
    put_place(&mut text, e.line as u64, e.text);
    text.end
}
