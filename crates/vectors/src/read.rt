// The parts of a script line.
ghost use Rattle.std.specs.Prelude.{◌≡◌, ◌-◌, ◌<◌, ◌≤◌, ◌==◌, ◌⊎◌, ◌↔◌, IfSome, IsNone, drop, if◌then◌else◌, length, map, nat_lt, position, slice_index, take};
ghost use Rattle.std.specs.Iterator.{at_most};
ghost use Rattle.vectors.specs.Held.{bytes_of};
ghost use Rattle.vectors.specs.declared.bytes.TheConstants.{MOST};

use crate::bytes::{Bytes, MOST};

// Where the first space stands.
fn space(line: &[u8]) -> Option<usize>
    ensures { result ≡ position (λ byte. byte == 32) line.now }
{
    line.iter().position(|byte| *byte == b' ')
}

// The fields of a line, each of them behind a space.
#[derive(Drop)]
pub struct Fields<'a>(pub &'a [u8]);

impl<'a> Iterator for Fields<'a> {
    type Item = &'a [u8];

    ghost remaining = { λ s. at_most (length s.0.now) };

    fn next(&mut self) -> Option<&'a [u8]> {
        let (_, line) = self.0.split_first()?;
        let (field, rest) = line.split_at(space(line).unwrap_or(line.len()));
        self.0 = rest;
        Some(field)
    }
}

// A digit's value, and 0 for another sign. (By hand: the library's digits are of a `char`, and give None.)
fn digit(sign: u8) -> usize
    ensures { result < 10 }
{
    match sign {
        b'0'..=b'9' => usize::from(sign - b'0'),
        _ => 0,
    }
}

// A decimal number. One that is too large is the largest.
pub fn number(word: &[u8]) -> usize {
    let mut n = 0usize;
    for sign in word {
        n = n.saturating_mul(10).saturating_add(digit(*sign));
    }
    n
}

// The value of a hexadecimal digit in small letters, and 0 for another sign. (By hand: as above.)
fn hexadecimal(sign: u8) -> u8
    ensures { result < 16 }
{
    match sign {
        b'0'..=b'9' => sign - b'0',
        b'a'..=b'f' => sign - b'a' + 10,
        _ => 0,
    }
}

// A byte of a list, so many times.
#[derive(Clone, Copy)]
struct Piece {
    byte: u8,
    times: usize,
}

fn single(byte: u8) -> Piece
    ensures { (result.byte ≡ byte) × (result.times ≡ 1) }
{
    Piece { byte, times: 1 }
}

// What a list begins with, and what stands behind it: `\*NNNNb` is the byte b NNNN times, `\xHH` a byte by its number, `\n` a line feed.
// Another byte stands for itself, also behind a backslash. Nothing at the quote that ends the list.
fn next_piece(line: &[u8]) -> Option<(Piece, &[u8])>
    ensures ends { IsNone result ↔ (length line.now ≡ 0) ⊎ (slice_index line.now 0 ≡ 34) }
    ensures shorter { IfSome result (λ found. length found.1.now < length line.now) }
    ensures rest { IfSome result (λ found. found.1.now ≡ drop (length line.now - length found.1.now) line.now) }
{
    match line {
        [] | [b'"', ..] => None,
        [b'\\', b'*', a, b, c, d, byte, rest @ ..] => {
            let times = number(&[*a, *b, *c, *d]);
            Some((Piece { byte: *byte, times }, rest))
        }
        [b'\\', b'x', high, low, rest @ ..] => {
            Some((single(hexadecimal(*high) * 16 + hexadecimal(*low)), rest))
        }
        [b'\\', b'n', rest @ ..] => Some((single(b'\n'), rest)),
        [b'\\', byte, rest @ ..] | [byte, rest @ ..] => Some((single(*byte), rest)),
    }
}

// The list up to the next quote, as far as there is space, in place of what the buffer holds. What stands behind the quote.
pub fn unescape<'a>(line: &'a [u8], list: &mut Bytes) -> &'a [u8]
    ensures list { length (bytes_of list.new) ≤ MOST }
    ensures shorter { length result.now ≤ length line.now }
    ensures rest { result.now ≡ drop (length line.now - length result.now) line.now }
{
    list.clear();
    let mut rest = line;
    // (No iterator: what is left is needed behind the last piece.)
    while let Some((piece, behind)) = next_piece(rest) {
        list.add(piece.byte, piece.times);
        rest = behind;
    }
    rest.get(1..).unwrap_or(&[])
}

// Signs as numbers, counted from the sign of 0; a sign below it is 255. They stand in place of what the buffer holds.
pub fn values(word: &[u8], zero: u8, found: &mut Bytes)
    ensures { bytes_of found.new ≡ map (λ sign. if nat_lt sign zero then 255 else sign - zero) (take MOST word.now) }
{
    let word = &word[..word.len().min(MOST)];
    for (i, sign) in word.iter().enumerate() {
        found.held[i] = sign.checked_sub(zero).unwrap_or(255);
    }
    found.count = word.len();
}
