// `tagedit` edits the base-modification tag of one read. It reads lines that give SEQ, MM, optionally ML, and then the steps. It prints an answer for
// the opening and for each step, and then what is left. The output is made by `transcript`; this file only reads and prints.
#![tactic(auto)]

ghost use Rattle.std.specs.Prelude.{◌≡◌, ◌≤◌, IfOk, IfSome, OnOk, length, take};
ghost use Rattle.std.specs.Io.KnownBytes.{Appends};
ghost use Rattle.transcript.specs.Transcript.{transcript_of};

use std::io;
use std::io::{Read, Write};

// One byte more than an input may have, so that a longer input is noticed.
fn input_row() -> [u8; 65537]
    ensures { 65537 ≡ length result }
{
    [0; 65537]
}

// Reads until the row is full or the input ends, and returns how many bytes are at the row's front. A read may give fewer bytes than there is room for.
fn read_full<R: Read>(from: &mut R, row: &mut [u8]) -> io::Result<usize>
    ensures in_row { IfOk result (λ n. n ≤ length row.new) }
    ensures bytes { IfOk result (λ n. IfSome (R.remaining from.old) (λ xs. take n row.new ≡ take (length row.old) xs)) }
{
    let mut done = 0;
    // A cursor, not a count: a read gives as many bytes as it gives.
    while done < row.len() {
        let n = from.read(&mut row[done..])?;
        if n == 0 {
            break;
        }
        done += n;
    }
    Ok(done)
}

fn print_front<W: Write>(to: &mut W, out: &[u8; 81925], n: usize) -> io::Result<()>
    requires { n ≤ 81925 }
    ensures { OnOk result (Appends (W.contents to.old) (W.contents to.new) (take n out.now)) }
{
    let row: &[u8] = out;
    to.write_all(&row[0..n])
}

// Prints the whole output for all that the reader has left, however much that is.
fn edit<R: Read, W: Write>(from: &mut R, to: &mut W) -> io::Result<()>
    ensures { OnOk result (IfSome (R.remaining from.old)
        (λ xs. Appends (W.contents to.old) (W.contents to.new) (transcript_of xs))) }
{
    let mut input = input_row();
    let n = read_full(from, &mut input)?;
    let mut seq = [0; 16000];
    let mut mm = [0; 65536];
    let mut ml = [0; 32768];
    let mut out = [0; 81925];
    let said = transcript::transcript(&input[..n], &mut seq, &mut mm, &mut ml, &mut out);
    print_front(to, &out, said)
}

fn main(rt: HostRuntime) -> io::Result<()> {
    edit(&mut rt.stdin(), &mut io::writer(&rt))
}
