// What is said of a refused list, for a person who typed it.
ghost use Rattle.std.specs.Prelude.{◌≡◌};
ghost use Rattle.tasks.specs.Refusals.{number_of};
ghost use Rattle.report.specs.Adds.{Adds};
ghost use Rattle.report.specs.Help.{place, sentence};

use crate::write::Text;
use tasks::Refusal;

// A sentence for each refusal of a list.
#[tactic(auto, unfolding(crate::specs::Help::sentence, crate::specs::Help::too_long, crate::specs::Help::misformed, crate::specs::Help::out_of_range, crate::specs::Help::late, crate::specs::Help::miscounted, crate::specs::Help::too_high))]
pub fn sentence(refusal: Refusal) -> &'static [u8]
    ensures { result.now ≡ sentence (number_of refusal) }
{
    match refusal {
        Refusal::ListTooLong => b"The list is longer than 4096 bytes.\n",
        Refusal::Malformed => {
            b"A line must hold 3, 5, 7 or 9 numbers of 1 to 4 digits with only spaces between: period, deadline, then steps and waits in turn.\n"
        }
        Refusal::OutOfRange => {
            b"A number is out of range: period and deadline must be 1 to 4096, each step and wait 1 to 255.\n"
        }
        Refusal::LateDeadline => b"The deadline must not be greater than the period.\n",
        Refusal::TaskCount => {
            b"A list must have 1 to 8 tasks: there is none, or the line shown is a ninth.\n"
        }
        _ => b"The least common multiple of the periods must be at most 4096.\n",
    }
}

// The number of a line, and the line as it stands.
pub fn put_place(text: &mut Text<'_>, number: u64, line: &[u8])
    ensures { Adds text.old (place number line.now) text.new }
{
    text.word(b"Line ");
    text.number(number);
    text.word(b": ");
    text.word(line);
    text.byte(b'\n');
}
