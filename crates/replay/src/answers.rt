//! What a call answered, in words.
use pile::request::{Answer, Sight};
use schema::faults::Notice;
use schema::row::Row;
use std::fmt;
use std::fmt::Display;

/// An answer, with the number of classes by which a verdict's table is read.
#[derive(Drop)]
pub struct Told<'a> {
    pub answer: &'a Answer,
    pub classes: usize,
}

/// What came of a call that has no other answer than a refusal.
#[derive(Drop)]
pub struct Outcome<F>(pub Result<(), F>);

impl Display for Told<'_> {
    fn fmt<W: fmt::Write>(&self, f: &mut fmt::Formatter<W>) -> fmt::Result {
        match self.answer {
            Answer::Entered(done) => Outcome(*done).fmt(f),
            Answer::Amended(done) => Outcome(*done).fmt(f),
            Answer::Struck(done) => Outcome(*done).fmt(f),
            Answer::Restored(done) => Outcome(*done).fmt(f),
            Answer::Loaded(done, _) => Outcome(*done).fmt(f),
            Answer::Withdrawn(number) => write!(f, "{number} dropped"),
            Answer::Seen(sight) => tell(f, sight, self.classes),
            Answer::NotHere(_) => f.write_str("no such call here"),
            Answer::NoPart(_) => f.write_str("no such part"),
        }
    }
}

impl<F: Copy + Display + Into<Notice>> Display for Outcome<F> {
    fn fmt<W: fmt::Write>(&self, f: &mut fmt::Formatter<W>) -> fmt::Result {
        match self.0 {
            Ok(()) => f.write_str("done"),
            Err(fault) => refused(f, fault),
        }
    }
}

// A refusal, by its number and its words.
fn refused<F, W>(f: &mut fmt::Formatter<W>, fault: F) -> fmt::Result
where
    F: Copy + Display + Into<Notice>,
    W: fmt::Write,
{
    let number = fault.into().number;
    write!(f, "refused {number}: {fault}")
}

// What a look told.
fn tell<W: fmt::Write>(f: &mut fmt::Formatter<W>, sight: &Sight, classes: usize) -> fmt::Result {
    match sight {
        Sight::Counts(classes, arrows) => write!(f, "{classes} classes, {arrows} arrows"),
        Sight::Capacity(number) | Sight::Len(number) => write!(f, "{number}"),
        Sight::RowAt(None) => f.write_str("none"),
        Sight::RowAt(Some(Row { letter, a, b, n })) => {
            let letter = char::from(*letter);
            write!(f, "{letter} {a} {b} {n}")
        }
        Sight::Judged(Err(fault), _) => refused(f, *fault),
        Sight::Judged(Ok(ones), table) => {
            write!(f, "{ones} forced empty")?;
            list(f, table.as_slice(), classes)
        }
        Sight::Asked(Err(fault)) => refused(f, *fault),
        Sight::Asked(Ok(true)) => f.write_str("yes"),
        Sight::Asked(Ok(false)) => f.write_str("no"),
    }
}

// The names that a verdict's table has a 1 at: classes first, then arrows.
fn list<W: fmt::Write>(f: &mut fmt::Formatter<W>, table: &[u8], classes: usize) -> fmt::Result {
    let mut mark = ": ";
    for (name, byte) in table.iter().enumerate() {
        if *byte == 1 {
            f.write_str(mark)?;
            mark = ", ";
            match name.checked_sub(classes) {
                None => write!(f, "class {name}")?,
                Some(arrow) => write!(f, "arrow {arrow}")?,
            }
        }
    }
    Ok(())
}
