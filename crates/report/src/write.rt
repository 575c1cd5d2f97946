// Text put into a lent buffer, one part after the other, as far as there is room.
ghost use Rattle.std.specs.Prelude.{◌≡◌, [], ◌∷◌, ◌++◌, ◌≤◌, All, length, map};
ghost use Rattle.list.specs.Plain.{digits_in};
ghost use Rattle.report.specs.Texts.{decimal, slot_byte, slot_lines};
ghost use Rattle.report.specs.Put.{Choice, fields};

use tasks::IDLE;

// A lent buffer, and where its text ends.
#[derive(Drop)]
pub struct Text<'a> {
    pub out: &'a mut [u8],
    pub end: usize,
    ghost within: { end ≤ length out.now },
}

impl<'a> Text<'a> {
    ghost use Rattle.report.specs.Adds.{Adds};

    // No text yet.
    pub fn new(out: &'a mut [u8]) -> Text<'a>
        ensures same_reference { result.out.ghost_name ≡ out.entry.ghost_name }
        ensures kept { result.out.now ≡ out.old }
        ensures start { result.end ≡ 0 }
    {
        Text { out, end: 0 }
    }

    // As much of a word as there is room for.
    pub fn word(&mut self, word: &[u8])
        ensures { Adds self.old word.now self.new }
    {
        let size = word.len().min(self.out.len() - self.end);
        let end = self.end + size;
        self.out[self.end..end].copy_from_slice(&word[..size]);
        self.end = end;
    }

    #[tactic(auto, using(crate::proofs::Put::byte_laws))]
    // One byte, if there is room. (A store: a word is copied by a call, which for each byte of a schedule costs more than its slot.)
    pub fn byte(&mut self, byte: u8)
        ensures { Adds self.old (byte ∷ []) self.new }
    {
        if self.end < self.out.len() {
            self.out[self.end] = byte;
            self.end += 1;
        }
    }

    #[tactic(auto, using(crate::proofs::Numbers::number_laws))]
    // The digits of n, at most k of them, by recursion on the number without its last digit.
    fn digits(&mut self, k: u8, n: u64)
        ensures { Adds self.old (digits_in k n) self.new }
    {
        if k == 0 || n == 0 {
            return;
        }
        self.digits(k - 1, n / 10);
        self.byte(b'0' + (n % 10) as u8);
    }

    #[tactic(auto, using(crate::proofs::Numbers::number_laws))]
    // A number in decimal: a number of 64 bits has at most 20 digits.
    pub fn number(&mut self, n: u64)
        ensures { Adds self.old (decimal n) self.new }
    {
        if n == 0 {
            self.byte(b'0');
        } else {
            self.digits(20, n);
        }
    }

    #[tactic(auto, using(crate::proofs::Adds::none_laws), unfolding(crate::specs::Put::fields))]
    // A line of a word and numbers.
    pub fn line(&mut self, word: &[u8], numbers: &[u64])
        ensures { Adds self.old (word.now ++ fields numbers.now ++ 10 ∷ []) self.new }
    {
        self.word(word);
        for n in numbers {
            self.byte(b' ');
            self.number(*n);
        }
        self.byte(b'\n');
    }

    #[tactic(auto, using(crate::proofs::Slots::line_laws))]
    // A line of slots.
    fn slot_line(&mut self, choices: &[u8])
        requires { All Choice choices.now }
        ensures { Adds self.old (map slot_byte choices.now ++ 10 ∷ []) self.new }
    {
        for choice in choices {
            self.byte(slot_byte(*choice));
        }
        self.byte(b'\n');
    }

    // The slots, 64 to a line.
    pub fn slots(&mut self, slots: &[u8])
        requires { All Choice slots.now }
        ensures { Adds self.old (slot_lines 0 slots.now) self.new }
    {
        for line in slots.chunks(64) {
            self.slot_line(line);
        }
    }
}

#[tactic(auto, using(crate::proofs::Slots::byte_laws))]
// A slot's choice as it is shown: a dot for idle, else the task's number. (An entry is a byte and has no type to convert.)
fn slot_byte(choice: u8) -> u8
    requires { Choice choice }
    ensures { result ≡ slot_byte choice }
{
    if choice == IDLE {
        return b'.';
    }
    b'1' + choice
}
