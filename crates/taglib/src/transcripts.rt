// The program `tagedit` as a function.
ghost use Rattle.taglib.specs.TranscriptContracts.{TranscribesInC};

// Writes what `tagedit` prints for a whole input to the front of `out`, and returns its length. The other rows are working space.
#[unsafe(no_mangle)]
pub extern "C" fn aql_transcript(
    input: &[u8],
    seq: &mut [u8; 16000],
    mm: &mut [u8; 65536],
    ml: &mut [u8; 32768],
    out: &mut [u8; 81925],
) -> usize
    ensures { TranscribesInC input.now out.old result out.new }
{
    transcript::transcript(input, seq, mm, ml, out)
}
