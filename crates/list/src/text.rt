// The bytes of a text: what ends a line, what parts fields, and what is skipped.
ghost use Rattle.std.specs.Prelude.{◌≡◌, not, position};
ghost use Rattle.list.specs.Text.{ends_line, parts_fields};
ghost use Rattle.list.specs.Reading.{is_comment, skipped};
ghost use Rattle.list.specs.Inner.{IsFirstLine};

// What ends a line: a line feed.
#[tactic(auto, unfolding(crate::specs::Text::ends_line))]
fn ends_line(b: u8) -> bool
    ensures { result ≡ ends_line b }
{
    b == b'\n'
}

// What parts fields: a space.
#[tactic(auto, unfolding(crate::specs::Text::parts_fields))]
pub fn parts_fields(b: u8) -> bool
    ensures { result ≡ parts_fields b }
{
    b == b' '
}

// Where the first line ends, if a line feed ends it. (By place: inlined, `position` keeps a count beside its iterator, and a byte takes up to twice the time.)
#[tactic(auto, using(crate::proofs::Tests::first_laws))]
fn line_end(text: &[u8]) -> Option<usize>
    ensures { result ≡ position ends_line text.now }
{
    for (i, b) in text.iter().enumerate() {
        if ends_line(*b) {
            return Some(i);
        }
    }
    None
}

// The first line without its line feed, and what is behind it.
#[tactic(auto, using(crate::proofs::Lines::line_cut, crate::proofs::Lines::line_whole))]
pub fn first_line(text: &[u8]) -> (&[u8], &[u8])
    ensures { IsFirstLine text.now result.0.now result.1.now }
{
    match line_end(text) {
        Some(end) => (&text[..end], &text[end + 1..]),
        None => (text, &[]),
    }
}

// A line whose first byte is `#`.
#[tactic(auto, unfolding(crate::specs::Reading::is_comment))]
fn is_comment(line: &[u8]) -> bool
    ensures { result ≡ is_comment line.now }
{
    matches!(line, [b'#', ..])
}

// Where the first field starts, if there is one. (Not inlined: alone, `position` keeps the place and no more.)
#[inline(never)]
pub fn field_start(line: &[u8]) -> Option<usize>
    ensures { result ≡ position (λ b. not (parts_fields b)) line.now }
{
    line.iter().position(|b| !parts_fields(*b))
}

// A line that says nothing: a comment, or only what parts fields.
#[tactic(auto, using(crate::proofs::Words::skipped_tells))]
pub fn is_skipped(line: &[u8]) -> bool
    ensures { result ≡ skipped line.now }
{
    is_comment(line) || field_start(line).is_none()
}
