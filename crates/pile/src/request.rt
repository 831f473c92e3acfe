//! What may be asked of a part of a pile, and what comes back.
use crate::faults::{RestoreFault, StrikeFault};
use schema::faults::{AmendFault, EnterFault, LoadFault, QuestionFault, VerdictFault};
use schema::row::Row;

/// A call that changes nothing. It owns the table that it has filled.
#[derive(Drop)]
pub enum Look {
    Counts,
    Capacity,
    Len,
    RowAt(usize),
    Verdict(Vec<u8>),
    Question(Row),
}

/// What a look told, with the table given back.
#[derive(Drop)]
pub enum Sight {
    Counts(u16, u16),
    Capacity(usize),
    Len(usize),
    RowAt(Option<Row>),
    Judged(Result<usize, VerdictFault>, Vec<u8>),
    Asked(Result<bool, QuestionFault>),
}

/// A call on a part of a pile. It owns the text that is to be loaded.
#[derive(Drop)]
pub enum Call {
    Enter(Row),
    Amend(usize, Row),
    Withdraw,
    Strike(usize),
    Restore(usize),
    Load(Vec<u8>),
    Look(Look),
}

/// What a call came to, with the text given back. A call that the part does not have, or that names no part, comes back as it was.
#[derive(Drop)]
pub enum Answer {
    Entered(Result<(), EnterFault>),
    Amended(Result<(), AmendFault>),
    Withdrawn(usize),
    Struck(Result<(), StrikeFault>),
    Restored(Result<(), RestoreFault>),
    Loaded(Result<(), LoadFault>, Vec<u8>),
    Seen(Sight),
    NotHere(Call),
    NoPart(Call),
}

/// A call, and the part that it is made on: the lowest sheet is part 0, and the layers follow upward.
#[derive(Drop)]
pub struct Request {
    pub part: usize,
    pub call: Call,
}
