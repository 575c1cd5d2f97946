// What is read of a line so far: a field's digits, and the numbers of the fields.
ghost use Rattle.std.specs.Prelude.{false, ◌≡◌, List, [], ◌∷◌, ◌++◌, ℕ, ◌≤◌, ◌<◌, ◌^◌, MatchOption};
ghost use Rattle.list.specs.declared.numbers.TheConstants.{MOST_DIGITS, MOST_FIELDS};

// The most digits of a field, and the most fields of a line.
const MOST_DIGITS: u8 = 4;

const MOST_FIELDS: usize = 9;

// A field's digits so far: how many, at most four, and the number that they write.
#[derive(Clone, Copy, Debug, PartialEq, Eq)]
pub struct Digits {
    count: u8,
    pub value: u16,
    ghost few: { count ≤ MOST_DIGITS },
    ghost fits: { value < 10 ^ count },
}

impl Digits {
    ghost use Rattle.list.specs.Reading.{is_field};
    ghost use Rattle.list.specs.Inner.{Begun};

    // No digit yet.
    pub fn new() -> Digits
        ensures { Begun [] result }
    {
        Digits { count: 0, value: 0 }
    }

    // With one byte more, if it is a digit and no fifth one.
    pub fn with(self, b: u8) -> Option<Digits>
        ensures { (p : List ℕ) → Begun p self → MatchOption result (is_field (p ++ b ∷ []) ≡ false) (Begun (p ++ b ∷ [])) }
    {
        if !b.is_ascii_digit() || self.count == MOST_DIGITS {
            return None;
        }
        Some(Digits {
            count: self.count + 1,
            value: self.value * 10 + u16::from(b - b'0'),
        })
    }
}

// The numbers of a line's fields, at most nine: a buffer with a count, since nothing here uses the heap.
#[derive(Clone, Copy, Debug, PartialEq, Eq)]
pub struct Numbers {
    count: usize,
    values: [u16; MOST_FIELDS],
    ghost few: { count ≤ MOST_FIELDS },
}

impl Numbers {
    ghost use Rattle.list.specs.Inner.{numbers_after, numbers_of, one_more};

    // No number yet.
    pub fn new() -> Numbers
        ensures { numbers_of result ≡ [] }
    {
        Numbers {
            count: 0,
            values: [0; MOST_FIELDS],
        }
    }

    // The numbers alone.
    pub fn as_slice(&self) -> &[u16]
        ensures { result.now ≡ numbers_of self.now }
    {
        &self.values[..self.count]
    }

    // One number more, if it is no tenth one.
    pub fn push(&mut self, value: u16) -> Option<()>
        ensures { numbers_after result self.new ≡ one_more (numbers_of self.old) value }
    {
        if self.count == MOST_FIELDS {
            return None;
        }
        self.values[self.count] = value;
        self.count += 1;
        Some(())
    }
}
