// Bytes, patterns and the chemistry.
ghost use Rattle.taglib.specs.PatternContracts.{UppercasesInC, ComparesInC, FindsPatternInC, NamesBasesInC, NamesLetterInC, NamesSignInC, TellsEnabledInC};

use pattern::ConversionPattern;

// The byte in upper case.
#[unsafe(no_mangle)]
pub extern "C" fn aql_to_ascii_uppercase(b: u8) -> u8
    ensures { UppercasesInC b result }
{
    pattern::to_ascii_uppercase(b)
}

// 1 if the two bytes are the same in upper case, else 0.
#[unsafe(no_mangle)]
pub extern "C" fn aql_eq_ignore_ascii_case(a: u8, b: u8) -> u8
    ensures { ComparesInC a b result }
{
    pattern::eq_ignore_ascii_case(a, b) as u8
}

// 0 for C to T, 1 for G to A.
#[unsafe(no_mangle)]
pub extern "C" fn aql_pattern_from_read_flags(read_flags: u16) -> u8
    ensures { FindsPatternInC read_flags result }
{
    match ConversionPattern::from_read_flags(read_flags) {
        ConversionPattern::CToT => 0,
        ConversionPattern::GToA => 1,
    }
}

// The pattern's three bases.
#[unsafe(no_mangle)]
pub extern "C" fn aql_pattern_bases(
    read_flags: u16,
    reference: &mut u8,
    unconverted: &mut u8,
    converted: &mut u8,
)
    ensures { NamesBasesInC read_flags reference.new unconverted.new converted.new }
{
    let bases = ConversionPattern::from_read_flags(read_flags).bases();
    *reference = bases.reference;
    *unconverted = bases.unconverted;
    *converted = bases.converted;
}

// The letter of the pattern's MM group.
#[unsafe(no_mangle)]
pub extern "C" fn aql_pattern_letter(read_flags: u16) -> u8
    ensures { NamesLetterInC read_flags result }
{
    ConversionPattern::from_read_flags(read_flags).letter()
}

// The strand sign of the pattern's MM group.
#[unsafe(no_mangle)]
pub extern "C" fn aql_pattern_sign(read_flags: u16) -> u8
    ensures { NamesSignInC read_flags result }
{
    ConversionPattern::from_read_flags(read_flags).sign()
}

// Whether a chemistry is chosen; 13 for an unknown mode.
#[unsafe(no_mangle)]
pub extern "C" fn aql_mode_is_enabled(mode: u8, enabled: &mut u8) -> u8
    ensures { TellsEnabledInC mode enabled.old result enabled.new }
{
    match modes::mode_of(mode) {
        Ok(chosen) => {
            *enabled = chosen.is_enabled() as u8;
            0
        }
        Err(refusal) => refusal.number(),
    }
}
