// `evidence_run` runs `evidence::gate_row`, which C can't call. It gates the first n of 16,001 records, for several n. For each n it prints one line:
// the answer's number, how many records are done, and the first and the last of the n records after the call.
//
// `gate_row` takes a lent row of structs. One function lends it, and all others pass the array by value.
#![tactic(auto)]

ghost use Rattle.std.specs.Prelude.{◌≤◌};

use evidence::{MethylationEvidence, gate_row};
use lent::Refusal;
use std::io;

// No count is 0, so the counts show whether a record was gated.
fn record_at(i: usize) -> MethylationEvidence {
    MethylationEvidence {
        informative: i % 2 == 1,
        unconverted: (i % 7 + 2) as u32,
        converted: (i % 3 + 1) as u32,
    }
}

// One record more than the domain allows.
fn all_records() -> [MethylationEvidence; 16001] {
    let none = MethylationEvidence::new(false);
    let mut row = [none; 16001];
    for (i, record) in row.iter_mut().enumerate() {
        *record = record_at(i);
    }
    row
}

// The answer of the call, and the whole array after the call.
#[derive(Clone, Copy)]
struct Left {
    answer: Result<usize, Refusal>,
    row: [MethylationEvidence; 16001],
}

// Gates the first n records. The answer and the array are from the same call.
fn gated(row: [MethylationEvidence; 16001], n: usize) -> Left
    requires { n ≤ 16001 }
{
    let mut own = row;
    let answer = gate_row(&mut own[0..n]);
    Left { answer, row: own }
}

fn print(rt: &impl Print, number: u64, after: &str) -> io::Result<()> {
    print!(rt; "{number}{after}")
}

fn print_answer(rt: &impl Print, r: Result<usize, Refusal>) -> io::Result<()> {
    match r {
        Ok(n) => {
            print(rt, 0, "\t")?;
            print(rt, n as u64, "\t")
        }
        Err(refusal) => {
            print(rt, refusal.number() as u64, "\t")?;
            print(rt, 0, "\t")
        }
    }
}

fn print_record(rt: &impl Print, e: MethylationEvidence, after: &str) -> io::Result<()> {
    print(rt, e.informative as u64, ",")?;
    print(rt, e.unconverted as u64, ",")?;
    print(rt, e.converted as u64, after)
}

// The index of the last of n records. For n = 0 it is 0; that record must stay unchanged.
fn last_of(n: usize) -> usize
    requires { n ≤ 16001 }
    ensures { result ≤ 16000 }
{
    if n == 0 { 0 } else { n - 1 }
}

fn run(rt: &impl Print, row: [MethylationEvidence; 16001], n: usize) -> io::Result<()>
    requires { n ≤ 16001 }
{
    let left = gated(row, n);
    print_answer(rt, left.answer)?;
    let first = left.row[0];
    print_record(rt, first, "\t")?;
    let at = last_of(n);
    let last = left.row[at];
    print_record(rt, last, "\n")
}

fn main(rt: HostRuntime) -> io::Result<()> {
    let row = all_records();
    run(&rt, row, 0)?;
    run(&rt, row, 3)?;
    run(&rt, row, 16000)?;
    run(&rt, row, 16001)
}
