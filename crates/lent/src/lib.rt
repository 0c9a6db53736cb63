// Why a call wrote nothing, for code and definitions alike. Also lent rows after a call, and the laws of lists and numbers that several crates cite.
//
// specs/Outcome.antt: the outcome of a call. specs/Filled.antt: a lent row after a call. specs/Lists.antt: tests over a list.
// proofs/: their laws, one file per topic.
#![tactic(auto)]

ghost use Rattle.std.specs.Prelude.{◌≡◌};
ghost use Rattle.lent.specs.Outcome.{number};

// Why a call wrote nothing. The function that finds the reason makes it, and its callers pass it on unchanged, by `?`. A C caller gets its number.
#[derive(Clone, Copy, Debug, PartialEq, Eq)]
pub enum Refusal {
    // An input is longer than the domain allows.
    TooLong = 1,
    // Lengths that have to agree differ.
    LengthsDisagree = 2,
    // A byte of MM is above 127.
    MmNotAscii = 3,
    // MM lacks its final ';'.
    MmNotClosed = 4,
    // A group's header is shorter than two bytes.
    ShortHeader = 5,
    // A skip is empty or has a byte that is no digit.
    BadSkip = 6,
    // A skip passes the last base that its group counts.
    SkipTooFar = 7,
    // ML ends inside a listed base's values.
    MlTooShort = 8,
    // ML has bytes left over.
    MlLeftOver = 9,
    // A drop names a listed call of a group whose header does not end in '?'.
    DropWithoutMark = 10,
    // The edited SEQ is no window of the old one, its start is unknown, or a cut exceeds SEQ.
    NoWindow = 11,
    // The finished answer needs more room than was lent.
    NoRoom = 12,
    // A value that is none of those allowed: a CIGAR kind, a start, a number of strands, a chemistry.
    BadNumber = 13,
    // A record is shorter than its head, or than its head says.
    ShortRecord = 14,
    // A record's fields cannot be read to the end.
    BadFields = 15,
    // The tag would have no calls. Not an error: nothing is written either.
    NoCalls = 20,
    // There is nothing to change. Not an error: nothing is written either.
    Unchanged = 21,
}

impl Refusal {
    // The number in the scope's table.
    pub fn number(self) -> u8
        ensures { result ≡ number self }
    {
        self as u8
    }
}
