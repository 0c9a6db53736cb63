// The C library: every public call except `evidence::gate_row` as an export over numbers and slices. include/aquiledru.h says how to call each one.
//
// An export turns C's numbers into the call's arguments: a yes/no byte is yes if it is not 0, a read's flags give the pattern, and 0, 1 and 2 give
// the chemistry. It makes the call and passes the answer on: the scope's number is returned, and the results go into lent numbers, which a refusal
// leaves unchanged. No export has a `requires`. The promise of an export is one proposition of specs/, in the file of its family (AlignmentContracts
// and so on). The export's `ensures` cites it.
#![tactic(auto)]

pub mod alignments;
pub mod building_tags;
pub mod duplexes;
pub mod evidences;
pub mod patterns;
pub mod reading_tags;
pub mod rewriting_tags;
pub mod sessions;
pub mod stored_reading;
pub mod stored_rewriting;
pub mod stored_sessions;
pub mod transcripts;
