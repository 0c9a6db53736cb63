// The C library of records: each public call of `record` as an export over numbers and slices. include/aquiledru_record.h says how to call each one.
//
// An export turns C's numbers into the call's arguments: a yes/no byte is yes if it is not 0. It makes the call and passes the answer on: the number is
// returned, and the new length and whether a field went are written into lent numbers, which a refusal leaves unchanged. No export has a `requires`. The promise
// of an export is one proposition of specs/RecordContracts, which its `ensures` cites.
#![tactic(auto)]

ghost use Rattle.std.specs.Prelude.{◌≡◌, Bool, ℕ};
ghost use Rattle.lent.specs.Outcome.{number_of};
ghost use Rattle.record_lib.specs.RecordContracts.{CutsRecordInC, DropsRecordInC, MasksRecordInC, as_number};
ghost use Rattle.telling.specs.Told.{told};

use lent::Refusal;

// Passes an answer on.
fn tell(answer: Result<(usize, bool), Refusal>, out_len: &mut usize, went: &mut usize) -> u8
    ensures { (result ≡ number_of answer)
        × (out_len.new ≡ told (λ (s : ℕ × Bool). s.0) answer out_len.old)
        × (went.new ≡ told (λ (s : ℕ × Bool). as_number s.1) answer went.old) }
{
    match answer {
        Ok((length, gone)) => {
            *out_len = length;
            *went = gone as usize;
            0
        }
        Err(refusal) => refusal.number(),
    }
}

// SEQ was masked.
#[unsafe(no_mangle)]
pub extern "C" fn aql_mask_record(
    bam: &[u8],
    before: &[u8],
    out: &mut [u8],
    out_len: &mut usize,
    went: &mut usize,
) -> u8
    ensures { MasksRecordInC bam.now before.now out.old out_len.old went.old
        result out.new out_len.new went.new }
{
    let answer = record::mask_record(bam, before, out);
    tell(answer, out_len, went)
}

// The calls at places of the stored read are dropped.
#[unsafe(no_mangle)]
pub extern "C" fn aql_drop_record(
    bam: &[u8],
    places: &[u32],
    out: &mut [u8],
    out_len: &mut usize,
    went: &mut usize,
) -> u8
    ensures { DropsRecordInC bam.now places.now out.old out_len.old went.old
        result out.new out_len.new went.new }
{
    let answer = record::drop_record(bam, places, out);
    tell(answer, out_len, went)
}

// SEQ was cut.
#[unsafe(no_mangle)]
pub extern "C" fn aql_cut_record(
    bam: &[u8],
    before: &[u8],
    before_reverse: u8,
    start_known: u8,
    start: usize,
    out: &mut [u8],
    out_len: &mut usize,
    went: &mut usize,
) -> u8
    ensures { CutsRecordInC bam.now before.now before_reverse start_known start out.old out_len.old
        went.old result out.new out_len.new went.new }
{
    let begin = telling::starts::window_start(start_known, start);
    let answer = record::cut_record(bam, before, before_reverse != 0, begin, out);
    tell(answer, out_len, went)
}
