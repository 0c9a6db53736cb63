// The evidence of one position, and gating a lent row of evidence records: the smallest part of port step 3.
//
// The names are those of the Rust code. Counting, gating and the other work on columns are in the crate `annotation`. No function here has a
// `requires`. Each public call's contract is one proposition of specs/PublicContracts.
#![tactic(auto)]

ghost use Rattle.std.specs.Prelude.{◌≡◌, ◌+◌};
ghost use Rattle.evidence.specs.PublicContracts.{StartsEvidence, CountsBase, GatesPosition, GatesRow};
ghost use Rattle.evidence.specs.Position.{capped};
ghost use Rattle.evidence.specs.Row.{gated_row, row_of, records_to_gate};

use lent::Refusal;
use pattern::ConversionPattern;

// The evidence of one position: whether it carries a call for the strand, and how many of the counted reads show the unconverted and the converted
// base there.
#[derive(Clone, Copy)]
pub struct MethylationEvidence {
    pub informative: bool,
    pub unconverted: u32,
    pub converted: u32,
}

impl MethylationEvidence {
    // A position with nothing counted yet.
    pub fn new(informative: bool) -> Self
        ensures { StartsEvidence informative result }
    {
        MethylationEvidence {
            informative,
            unconverted: 0,
            converted: 0,
        }
    }

    // The evidence with one read's base counted, in upper or lower case.
    pub fn counted(self, base: u8, pattern: ConversionPattern) -> Self
        ensures { CountsBase self base pattern result }
    {
        let bases = pattern.bases();
        let unconverted = self.unconverted;
        let converted = self.converted;
        if pattern::eq_ignore_ascii_case(base, bases.unconverted) {
            return MethylationEvidence {
                informative: self.informative,
                unconverted: one_more(unconverted),
                converted,
            };
        }
        if pattern::eq_ignore_ascii_case(base, bases.converted) {
            return MethylationEvidence {
                informative: self.informative,
                unconverted,
                converted: one_more(converted),
            };
        }
        self
    }

    // The evidence unchanged if the position is informative, else a position with nothing counted.
    pub fn gated(self) -> Self
        ensures { GatesPosition self result }
    {
        if self.informative {
            return self;
        }
        MethylationEvidence::new(false)
    }
}

// One more, but at most the largest u32.
fn one_more(count: u32) -> u32
    ensures { result ≡ capped (count + 1) }
{
    if count == u32::MAX {
        return u32::MAX;
    }
    count + 1
}

// Gates a lent row of evidence records, as `gate_to_informative` gates the columns. Ok with the number of records; Err with 1 for more than 16,000.
pub fn gate_row(row: &mut [MethylationEvidence]) -> Result<usize, Refusal>
    ensures { GatesRow row.old result row.new }
{
    let n = records_to_gate(row.len());
    for e in row[..n].iter_mut() {
        *e = e.gated();
    }
    answer_for_row(row.len())
}

// Gates three records through a lent row: a caller of `gate_row` that knows only its contract.
fn gated_three(row: [MethylationEvidence; 3]) -> [MethylationEvidence; 3]
    ensures { result ≡ gated_row row }
{
    let mut own = row;
    // Three records are never too many.
    let _ = gate_row(&mut own);
    own
}

// All records of a row that the domain allows, none of a longer row.
fn records_to_gate(records: usize) -> usize
    ensures { result ≡ records_to_gate records }
{
    if 16000 < records {
        return 0;
    }
    records
}

fn answer_for_row(records: usize) -> Result<usize, Refusal>
    ensures { result ≡ row_of records }
{
    if 16000 < records {
        return Err(Refusal::TooLong);
    }
    Ok(records)
}
