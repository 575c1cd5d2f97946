// Why something is refused, with its number.
ghost use Rattle.std.specs.Prelude.{◌≡◌};
ghost use Rattle.tasks.specs.Refusals.{number_of};

// A list is refused for one of the first six, a lent table or buffer for the next two, a player's state, reports or table for the last three.
#[derive(Clone, Copy, Debug, PartialEq, Eq, Hash)]
pub enum Refusal {
    ListTooLong,
    Malformed,
    OutOfRange,
    LateDeadline,
    TaskCount,
    HyperTooLong,
    ShortTable,
    ShortBuffer,
    BadState,
    ReportCount,
    BadTable,
}

// The number that C and the program's text give.
impl From<Refusal> for u8 {
    ghost from_gives = { λ refusal n. n ≡ number_of refusal };

    fn from(refusal: Refusal) -> u8 {
        match refusal {
            Refusal::ListTooLong => 1,
            Refusal::Malformed => 2,
            Refusal::OutOfRange => 3,
            Refusal::LateDeadline => 4,
            Refusal::TaskCount => 5,
            Refusal::HyperTooLong => 6,
            Refusal::ShortTable => 7,
            Refusal::ShortBuffer => 8,
            Refusal::BadState => 10,
            Refusal::ReportCount => 11,
            Refusal::BadTable => 12,
        }
    }
}
