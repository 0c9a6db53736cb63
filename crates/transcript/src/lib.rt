// From the whole input of `tagedit` to its whole output. Port step 8: the program's `main` reads its input, lends the desk (the rows in which the
// session works) and the output, and prints what this function writes.
//
// Number rules: plain decimals, leading zeros allowed, of any length; an ML value is at most 255, a place and an end of a cut at most 4294967295. A
// number above its bound makes its line bad, and so does a byte that is no digit.
#![tactic(auto)]

ghost use Rattle.std.specs.Prelude.{◌≡◌, ◌+◌, ◌≤◌, length, drop, take};
ghost use Rattle.lines.specs.Lines.{lines_of};
ghost use Rattle.transcript.specs.PublicContracts.{Transcribes};
ghost use Rattle.transcript.specs.Desk.{DeskFits, Said};
ghost use Rattle.transcript.specs.Transcript.{opened_on, from_third, from_second, from_first};

use stepping::Lengths;

// SEQ, MM and ML are read, and the ML's values are at the front of its row. The opening is answered on the input's own lines, so that a SEQ that is
// too long is refused before anything is copied. Then SEQ and the text are copied to the desk, and the lines that follow are answered.
fn open_session(
    input: &[u8],
    place: usize,
    bases: &[u8],
    text: &[u8],
    values: usize,
    has_ml: bool,
    seq: &mut [u8],
    mm: &mut [u8],
    ml: &mut [u8],
    out: &mut [u8],
) -> usize
    requires input_len_bound { (length input.now ≤ 65536) × (place ≤ 65538) × (length bases.now ≤ 65536) × (length text.now ≤ 65536) × (values ≤ 32768) }
    requires desk_fits { DeskFits seq.old mm.old ml.old }
    requires input_len_bound_2 { length (opened_on has_ml bases.now text.now (take values ml.old) (lines_of (drop place input.now))) ≤ 81925 }
    ensures { Said (opened_on has_ml bases.now text.now (take values ml.old)
        (lines_of (drop place input.now))) result out.old out.new }
{
    if let Err(refusal) = reading::check_tag(bases, text, &ml[0..values], has_ml) {
        return printing::put_answer(out, 0, refusal.number() as usize);
    }
    let end = printing::put_answer(out, 0, 0);
    entries::put_all(seq, 0, bases);
    entries::put_all(mm, 0, text);
    let lengths = Lengths {
        seq: bases.len(),
        mm: text.len(),
        ml: values,
    };
    serving::answer_rest(input, place, seq, mm, ml, has_ml, lengths, out, end)
}

// SEQ and MM are read. A third line that is marked ML is read before the opening is answered.
fn from_third(
    input: &[u8],
    place: usize,
    bases: &[u8],
    text: &[u8],
    seq: &mut [u8],
    mm: &mut [u8],
    ml: &mut [u8],
    out: &mut [u8],
) -> usize
    requires input_len_bound { (length input.now ≤ 65536) × (place ≤ 65538) × (length bases.now ≤ 65536) × (length text.now ≤ 65536) }
    requires desk_fits { DeskFits seq.old mm.old ml.old }
    requires input_len_bound_2 { length (from_third bases.now text.now (lines_of (drop place input.now))) ≤ 81925 }
    ensures { Said (from_third bases.now text.now (lines_of (drop place input.now)))
        result out.old out.new }
{
    if input.len() <= place {
        return open_session(input, place, bases, text, 0, false, seq, mm, ml, out);
    }
    let line = lines::next_line(input, place);
    let marked = lines::has_mark(line, b'M', b'L');
    if !marked {
        return open_session(input, place, bases, text, 0, false, seq, mm, ml, out);
    }
    let body = lines::body_of(line);
    let Some(values) = operands::put_values(body, ml) else {
        return printing::put_answer(out, 0, 13);
    };
    let next = place + line.len() + 1;
    open_session(input, next, bases, text, values, true, seq, mm, ml, out)
}

// SEQ is read. Any second line except an MM line is bad, and so is the end of the input.
fn from_second(
    input: &[u8],
    place: usize,
    bases: &[u8],
    seq: &mut [u8],
    mm: &mut [u8],
    ml: &mut [u8],
    out: &mut [u8],
) -> usize
    requires input_len_bound { (length input.now ≤ 65536) × (place ≤ 65538) × (length bases.now ≤ 65536) }
    requires desk_fits { DeskFits seq.old mm.old ml.old }
    requires input_len_bound_2 { length (from_second bases.now (lines_of (drop place input.now))) ≤ 81925 }
    ensures { Said (from_second bases.now (lines_of (drop place input.now))) result out.old out.new }
{
    if input.len() <= place {
        return printing::put_answer(out, 0, 13);
    }
    let line = lines::next_line(input, place);
    let marked = lines::has_mark(line, b'M', b'M');
    if !marked {
        return printing::put_answer(out, 0, 13);
    }
    let text = lines::body_of(line);
    let next = place + line.len() + 1;
    from_third(input, next, bases, text, seq, mm, ml, out)
}

// From the first line on. Any first line except an SQ line is bad, and so is the end of the input.
fn from_first(input: &[u8], seq: &mut [u8], mm: &mut [u8], ml: &mut [u8], out: &mut [u8]) -> usize
    requires input_len_bound { length input.now ≤ 65536 }
    requires desk_fits { DeskFits seq.old mm.old ml.old }
    requires input_len_bound_2 { length (from_first (lines_of input.now)) ≤ 81925 }
    ensures { Said (from_first (lines_of input.now)) result out.old out.new }
{
    if input.len() == 0 {
        return printing::put_answer(out, 0, 13);
    }
    let line = lines::next_line(input, 0);
    let marked = lines::has_mark(line, b'S', b'Q');
    if !marked {
        return printing::put_answer(out, 0, 13);
    }
    let bases = lines::body_of(line);
    let next = line.len() + 1;
    from_second(input, next, bases, seq, mm, ml, out)
}

// Writes the whole output for the whole input, and returns how many bytes of `out` it fills; the bytes after them are unchanged. `seq`, `mm` and `ml`
// are the desk in which the session works. They may have any contents, and nothing is promised about their contents afterwards. An input of more than
// 65,536 bytes is answered with 1 alone.
pub fn transcript(
    input: &[u8],
    seq: &mut [u8; 16000],
    mm: &mut [u8; 65536],
    ml: &mut [u8; 32768],
    out: &mut [u8; 81925],
) -> usize
    ensures { Transcribes input.now out.old result out.new }
{
    if 65536 < input.len() {
        return printing::put_answer(out, 0, 1);
    }
    from_first(input, seq, mm, ml, out)
}
