// The upper case of a byte, the conversion pattern of a read, and the chemistry: port step 1.
//
// The names are those of the Rust code. No function here has a `requires`. Each contract is one proposition of specs/PublicContracts.
#![tactic(auto)]

ghost use Rattle.pattern.specs.PublicContracts.{Uppercases, ComparesInAnyCase, FindsPattern, NamesBases, NamesLetter, NamesSign, TellsEnabled};

// All bits except the one that differs between lower and upper case.
const NO_CASE: u8 = 0xDF;

// An ASCII letter in upper case; any other byte unchanged.
pub fn to_ascii_uppercase(b: u8) -> u8
    ensures { Uppercases b result }
{
    if b < b'a' {
        return b;
    }
    if b'z' < b {
        return b;
    }
    b - 32
}

// Whether the two bytes are the same letter in upper or lower case, or the same byte. When many bytes are compared with one letter, each is masked and compared once.
pub fn eq_ignore_ascii_case(a: u8, b: u8) -> bool
    ensures { ComparesInAnyCase a b result }
{
    let capital = b & NO_CASE;
    if capital < b'A' {
        return a == b;
    }
    if b'Z' < capital {
        return a == b;
    }
    a & NO_CASE == capital
}

// How a read displays conversions in its own orientation. In a directional library R1 and unpaired reads are the original strand's own
// sequence, so conversions show as C to T; R2 is its complement, so they show as G to A.
#[derive(Clone, Copy)]
pub enum ConversionPattern {
    CToT,
    GToA,
}

// A pattern's three bases: the reference base that marks an informative place, and the bases that a read shows there if unconverted and if converted.
#[derive(Clone, Copy)]
pub struct Bases {
    pub reference: u8,
    pub unconverted: u8,
    pub converted: u8,
}

impl ConversionPattern {
    // SAM's flag "the last segment in the template": the read is an R2.
    pub const LAST_SEGMENT: u16 = 0x80;
    // The second byte of an MM header: a call on the strand that SEQ shows, or a call on the opposite strand.
    pub const SAME_STRAND: u8 = b'+';

    pub const OPPOSITE_STRAND: u8 = b'-';

    // The pattern of a read with the given SAM flags.
    pub fn from_read_flags(read_flags: u16) -> Self
        ensures { FindsPattern read_flags result }
    {
        if read_flags & Self::LAST_SEGMENT == 0 {
            ConversionPattern::CToT
        } else {
            ConversionPattern::GToA
        }
    }

    // Reference, unconverted and converted base, in read orientation.
    pub fn bases(self) -> Bases
        ensures { NamesBases self result }
    {
        match self {
            ConversionPattern::CToT => Bases {
                reference: b'C',
                unconverted: b'C',
                converted: b'T',
            },
            ConversionPattern::GToA => Bases {
                reference: b'G',
                unconverted: b'G',
                converted: b'A',
            },
        }
    }

    // The letter that the pattern's MM group counts.
    pub fn letter(self) -> u8
        ensures { NamesLetter self result }
    {
        match self {
            ConversionPattern::CToT => b'C',
            ConversionPattern::GToA => b'G',
        }
    }

    // The strand sign of the pattern's MM group.
    pub fn sign(self) -> u8
        ensures { NamesSign self result }
    {
        match self {
            ConversionPattern::CToT => Self::SAME_STRAND,
            ConversionPattern::GToA => Self::OPPOSITE_STRAND,
        }
    }
}

// The chemistry. It decides whether an unconverted or a converted base is evidence for methylation.
#[derive(Clone, Copy)]
pub enum MethylationMode {
    Disabled,
    EmSeq,
    Taps,
}

impl MethylationMode {
    // Whether a chemistry is chosen.
    pub fn is_enabled(self) -> bool
        ensures { TellsEnabled self result }
    {
        match self {
            MethylationMode::Disabled => false,
            MethylationMode::EmSeq => true,
            MethylationMode::Taps => true,
        }
    }
}
