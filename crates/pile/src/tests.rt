//! Layers at their limits, and a life.
use crate::faults::{RestoreFault, StrikeFault};
use crate::pile::life::live;
use crate::request::{Answer, Call, Look, Request};
use crate::strike::Strike;
use crate::trial::Trial;
use schema::book::Book;
use schema::faults::EnterFault;
use schema::row::Row;
use schema::sheet::Sheet;
use std::test::Fail;

// The row `S a b 0`.
fn row(a: u16, b: u16) -> Row {
    Row {
        letter: b'S',
        a,
        b,
        n: 0,
    }
}

#[test]
fn trial_rows(rt: HostRuntime) -> Result<(), Fail> {
    let mut book = Book::new(rt.alloc())?;
    assert_eq!(rt; book.enter(row(0, 1)), Ok(()));
    let Ok(mut trial) = Trial::new(rt.alloc(), book) else {
        return Err(Fail::new("no memory"));
    };
    for a in 0..32 {
        assert_eq!(rt; trial.enter(row(a, 2)), Ok(()));
    }
    assert_eq!(rt; trial.enter(row(0, 3)), Err(EnterFault::Full));
    assert_eq!(rt; trial.row(0), Some(row(0, 1)));
    assert_eq!(rt; trial.row(32), Some(row(31, 2)));
    assert_eq!(rt; trial.row(33), None);
    // a row entered below moves those on trial
    assert_eq!(rt; trial.below.enter(row(5, 5)), Ok(()));
    assert_eq!(rt; trial.row(2), Some(row(0, 2)));
    assert_eq!(rt; trial.withdraw(), 32);
    assert_eq!(rt; trial.len(), 2);
    Ok(())
}

#[test]
fn struck_rows(rt: HostRuntime) -> Result<(), Fail> {
    let mut book = Book::new(rt.alloc())?;
    for a in 0..40 {
        assert_eq!(rt; book.enter(row(a, 0)), Ok(()));
    }
    let Ok(mut layer) = Strike::new(rt.alloc(), book) else {
        return Err(Fail::new("no memory"));
    };
    assert_eq!(rt; layer.strike(40), Err(StrikeFault::NoSuchRow));
    assert_eq!(rt; layer.strike(2), Ok(()));
    assert_eq!(rt; layer.strike(0), Ok(()));
    assert_eq!(rt; layer.strike(2), Err(StrikeFault::StruckAlready));
    assert_eq!(rt; layer.row(0), Some(row(1, 0)));
    assert_eq!(rt; layer.row(1), Some(row(3, 0)));
    assert_eq!(rt; layer.restore(1), Err(RestoreFault::NotStruck));
    assert_eq!(rt; layer.restore(0), Ok(()));
    assert_eq!(rt; layer.row(1), Some(row(1, 0)));
    assert_eq!(rt; layer.len(), 39);
    for k in 3..34 {
        assert_eq!(rt; layer.strike(k), Ok(()));
    }
    assert_eq!(rt; layer.strike(39), Err(StrikeFault::TooManyStruck));
    assert_eq!(rt; layer.enter(row(0, 0)), Err(EnterFault::Full));
    assert_eq!(rt; layer.below.set_up(4, 2).is_ok(), true);
    assert_eq!(rt; layer.len(), 0);
    assert_eq!(rt; layer.restore(33), Ok(()));
    Ok(())
}

// Texts are loaded into a book and into a trial above it, and a row is struck above both.
#[test]
fn whole_life(rt: HostRuntime) -> Result<(), Fail> {
    let mut book = Book::new(rt.alloc())?;
    assert!(rt; book.set_up(4, 2).is_ok());
    let mut requests = Vec::new(rt.alloc());
    let low = b"H   4   2   1\nS   0   1   0\n".to_vec(rt.alloc())?;
    requests.push(Request {
        part: 0,
        call: Call::Load(low),
    })?;
    let high = b"H   3   1   2\nS   1   2   0\nS   2   0   0\n".to_vec(rt.alloc())?;
    requests.push(Request {
        part: 1,
        call: Call::Load(high),
    })?;
    requests.push(Request {
        part: 3,
        call: Call::Strike(1),
    })?;
    requests.push(Request {
        part: 4,
        call: Call::Look(Look::Len),
    })?;
    let (pile, answers) = live::<Strike<Trial<Trial<Book>>>>(rt.alloc(), book, requests)?;
    assert_eq!(rt; answers.len(), 4);
    assert!(rt; matches!(answers.get(0), Some(Answer::Loaded(Ok(()), _))));
    assert!(rt; matches!(answers.get(2), Some(Answer::Struck(Ok(())))));
    assert!(rt; matches!(answers.get(3), Some(Answer::NoPart(_))));
    assert_eq!(rt; pile.below.len(), 3);
    assert_eq!(rt; pile.row(0), Some(row(0, 1)));
    assert_eq!(rt; pile.row(1), Some(row(2, 0)));
    assert_eq!(rt; pile.row(2), None);
    Ok(())
}
