// The definitions of the three calls on a BAM record, and laws about them. No functions.
//
// specs/Values.antt: what a field holds. specs/Changes.antt: what becomes of the fields. specs/Records.antt: the three calls, with their refusals.
// specs/Plans.antt: the same changes as numbers, for the contracts of support functions. The numbers have their names here too.
#![tactic(auto)]

// The field stays.
pub const STAYS: u8 = 0;
// It goes.
pub const GOES: u8 = 1;
// A text, edited without ML.
pub const ALONE: u8 = 2;
// The text of MM, edited with its ML.
pub const PAIRED: u8 = 3;
// The values of ML, edited with MM.
pub const VALUES: u8 = 4;
// MN, which becomes the length of SEQ.
pub const LENGTH: u8 = 5;
// It goes, and the next field of its name becomes the length of SEQ.
pub const GOES_THEN_LENGTH: u8 = 6;
