// Bytes in an array, with their count: it needs no heap.
ghost use Rattle.std.specs.Prelude.{◌≤◌};
ghost use Rattle.vectors.specs.declared.bytes.TheConstants.{MOST};

// The most bytes of a list, and the most signs of a table or of reports.
pub const MOST: usize = 8192;

// At most MOST bytes.
#[derive(Drop)]
pub struct Bytes {
    pub held: [u8; MOST],
    pub count: usize,
    ghost few: { count ≤ MOST },
}

impl Bytes {
    ghost use Rattle.std.specs.Prelude.{◌≡◌, [], ◌++◌, replicate, take};
    ghost use Rattle.vectors.specs.Held.{bytes_of};

    // No byte yet.
    pub fn new() -> Bytes
        ensures { bytes_of result ≡ [] }
    {
        Bytes {
            held: [0; MOST],
            count: 0,
        }
    }

    // Makes it empty.
    pub fn clear(&mut self)
        ensures { bytes_of self.new ≡ [] }
    {
        self.count = 0;
    }

    // One byte so many times, as far as there is space.
    pub fn add(&mut self, byte: u8, times: usize)
        ensures { bytes_of self.new ≡ take MOST (bytes_of self.old ++ replicate times byte) }
    {
        let end = self.count.saturating_add(times).min(MOST);
        self.held[self.count..end].fill(byte);
        self.count = end;
    }

    // The bytes alone.
    pub fn as_slice(&self) -> &[u8]
        ensures { result.now ≡ bytes_of self.now }
    {
        &self.held[..self.count]
    }
}
