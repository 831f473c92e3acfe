//! Reads a text from standard input and writes which classes and arrows its rows force empty.
#![tactic(auto)]

use arrayvec::ArrayVec;
use schema::report::{REPORT_BYTES, report};
use std::io::{Read, Write};
use std::{env, io};

// The longest text, 513 lines of 14 bytes, and one byte more: enough to tell that an input is too long.
const INPUT_BYTES: usize = 7183;

const HELP: &str = "usage: report < TEXT

Reads a schema of classes and arrows and writes which of them its rows force
empty, in all data that could ever exist.

A text has lines of 14 bytes: a letter, three numbers right-justified in four
columns each, and a line feed. The first line is H, the number of classes (at
most 64), of arrows (at most 32) and of rows (at most 512). Each later line is
a row; arrow P has the ends 2P, its tail, and 2P+1, its head:

  S   a   b   0   each thing in class a is in class b
  X   a   b   0   no thing is in both classes a and b
  D   e   b   0   each thing that has end e at least once is in class b
  F   a   e   n   each thing in class a has end e at least n times, 1 to 30
  K   a   e   n   each thing in class a has end e at most n times, 1 to 30
  P   p   q   0   each pair of arrow p is a pair of arrow q
  Q   p   q   0   no pair belongs to both arrows p and q

The report has lines of the same form: V with the numbers of empty classes and
arrows, then C and the number of each empty class, A and that of each empty
arrow. A refused text gives one line: !, the refusal's number and two places.

Example:                         Report:
  H   3   1   3                    V   2   1   0
  D   1   1   0                    C   1   0   0
  X   1   1   0                    C   2   0   0
  F   2   0   1                    A   0   0   0
";

fn main(rt: HostRuntime) -> io::Result<()> {
    let first = env::args(&rt)?.nth(1);
    if first.is_some_and(|word| matches!(word.as_str(), "--help" | "-h")) {
        return rt.print(HELP);
    }
    let mut input = ArrayVec::<u8, INPUT_BYTES>::new();
    // A cast, since no `From` leads from usize to u64.
    io::copy(&mut rt.stdin().take(INPUT_BYTES as u64), &mut input)?;
    let mut bytes = [0u8; REPORT_BYTES];
    let written = report(input.as_slice(), &mut bytes).unwrap();
    rt.stdout().write_all(&bytes[..written])
}
