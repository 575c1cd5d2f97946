// The fields of a line as numbers: a field reader and a gap reader that call each other while the bytes left fall.
ghost use Rattle.std.specs.Prelude.{◌≡◌, List, ◌++◌, ℕ, ◌<◌, length, Some};
ghost use Rattle.list.specs.Text.{words};
ghost use Rattle.list.specs.Inner.{Begun, fields_of, numbers_after, numbers_in, numbers_of};

use crate::numbers::{Digits, Numbers};
use crate::text::{field_start, parts_fields};

// In a field, of which some digits are read: it ends at what parts fields or at the line's end.
// `numbers` has the words `ws` before it, and `p` are its digits so far.
#[cycle(field_gap)]
#[tactic(auto, using(crate::proofs::Reader::end_laws))]
fn field(line: &[u8], numbers: &mut Numbers, digits: Digits) -> Option<()>
    ensures { (ws : List (List ℕ)) (p : List ℕ) → Some (numbers_of numbers.old) ≡ fields_of ws → Begun p digits → 0 < length p → numbers_after result numbers.new ≡ fields_of (ws ++ words (p ++ line.now)) }
{
    match line {
        [] => numbers.push(digits.value),
        [b, rest @ ..] if parts_fields(*b) => {
            numbers.push(digits.value)?;
            gap(rest, numbers)
        }
        [b, rest @ ..] => field(rest, numbers, digits.with(*b)?),
    }
}

// Between fields: a gap ends at a digit or at the line's end. `numbers` has the words `ws` before it.
#[cycle(field_gap)]
#[tactic(auto, using(crate::proofs::Reader::end_laws))]
fn gap(line: &[u8], numbers: &mut Numbers) -> Option<()>
    ensures { (ws : List (List ℕ)) → Some (numbers_of numbers.old) ≡ fields_of ws → numbers_after result numbers.new ≡ fields_of (ws ++ words line.now) }
{
    let Some(at) = field_start(line) else {
        return Some(());
    };
    let digits = Digits::new().with(line[at])?;
    field(&line[at + 1..], numbers, digits)
}

// The fields of a whole line, if each word is one and there are nine at most.
pub fn line_fields(line: &[u8]) -> Option<Numbers>
    ensures { numbers_in result ≡ fields_of (words line.now) }
{
    let mut numbers = Numbers::new();
    gap(line, &mut numbers)?;
    Some(numbers)
}
