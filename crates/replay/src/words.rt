//! The words of a line, and what they ask of a part.
use crate::script::SCRIPT_BYTES;
use pile::request::{Call, Look};
use schema::row::Row;
use std::alloc::{AllocError, Global};
use thiserror::Error;

// The bytes of a verdict's table where the script does not tell.
const TABLE_BYTES: u16 = 96;

/// What is wrong with a line of a script, or want of memory.
#[derive(Debug, Drop, Error)]
pub enum Puzzle {
    #[error("the script is longer than {most} bytes", most = SCRIPT_BYTES)]
    TooLong,
    #[error("the line is no text")]
    NotText,
    #[error("a script begins with 'book' and two numbers, or with 'text'")]
    Beginning,
    #[error("the script has no lowest sheet")]
    NoLowest,
    #[error("the text has no 'end'")]
    NoEnd,
    #[error("a call is a part and what it is asked")]
    NotCall,
    #[error("a part is base, city, tariff, strikes or a number")]
    NotPart,
    #[error("there is no such call")]
    NoSuchCall,
    #[error("there is no such call, or it takes nothing")]
    TakesNothing,
    #[error("the call takes one number")]
    TakesOne,
    #[error("amend takes a number and a row")]
    AmendTakes,
    #[error("verdict takes one number at most")]
    VerdictTakes,
    #[error("a row is a letter and two or three numbers")]
    NotRow,
    #[error("a row begins with a letter")]
    NotLetter,
    #[error("a number has digits only")]
    NotDigits,
    #[error("the number is too large")]
    TooLarge,
    #[error("the number is above 65535")]
    Above65535,
    #[error("no memory")]
    Memory(#[from(alloc)] AllocError),
}

/// The words of a line, between, before and after which there are blanks.
pub(crate) fn split_words(heap: Global, line: &str) -> Result<Vec<&str>, AllocError> {
    line.split(' ')
        .filter(|word| !word.is_empty())
        .collect(heap)
}

/// The number of a part, by its name or in digits.
pub(crate) fn part_number(word: &str) -> Result<usize, Puzzle> {
    match word {
        "base" => Ok(0),
        "city" => Ok(1),
        "tariff" => Ok(2),
        "strikes" => Ok(3),
        _ => large(word).map_err(|_| Puzzle::NotPart),
    }
}

/// What a part is asked, by the name of the call and the words after it. The text of a load is empty: it stands on the lines that follow.
pub(crate) fn read_call(heap: Global, name: &str, rest: &[&str]) -> Result<Call, Puzzle> {
    match (name, rest) {
        ("enter", _) => Ok(Call::Enter(row(rest)?)),
        ("amend", [k, rest @ ..]) => Ok(Call::Amend(large(k)?, row(rest)?)),
        ("amend", []) => Err(Puzzle::AmendTakes),
        ("strike", _) => Ok(Call::Strike(only(rest)?)),
        ("restore", _) => Ok(Call::Restore(only(rest)?)),
        ("ask", _) => Ok(Call::Look(Look::Question(row(rest)?))),
        ("row", _) => Ok(Call::Look(Look::RowAt(only(rest)?))),
        ("verdict", _) => verdict(heap, rest),
        ("load", []) => Ok(Call::Load(Vec::new(heap))),
        ("withdraw", []) => Ok(Call::Withdraw),
        ("counts", []) => Ok(Call::Look(Look::Counts)),
        ("capacity", []) => Ok(Call::Look(Look::Capacity)),
        ("rows", []) => Ok(Call::Look(Look::Len)),
        (_, []) => Err(Puzzle::NoSuchCall),
        _ => Err(Puzzle::TakesNothing),
    }
}

// A verdict, on a table of as many bytes as the line tells.
fn verdict(heap: Global, rest: &[&str]) -> Result<Call, Puzzle> {
    let bytes = match rest {
        [] => TABLE_BYTES,
        [bytes] => small(bytes)?,
        _ => return Err(Puzzle::VerdictTakes),
    };
    let table = vec![in heap; 0u8; usize::from(bytes)]?;
    Ok(Call::Look(Look::Verdict(table)))
}

// A row: its letter and two or three numbers, the third 0 where it is left out.
fn row(words: &[&str]) -> Result<Row, Puzzle> {
    let (letter, a, b, n) = match words {
        [letter, a, b] => (letter, a, b, &"0"),
        [letter, a, b, n] => (letter, a, b, n),
        _ => return Err(Puzzle::NotRow),
    };
    Ok(Row {
        letter: one_byte(letter)?,
        a: small(a)?,
        b: small(b)?,
        n: small(n)?,
    })
}

fn one_byte(word: &str) -> Result<u8, Puzzle> {
    match word.as_bytes() {
        [letter] => Ok(*letter),
        _ => Err(Puzzle::NotLetter),
    }
}

// The one number of a call.
fn only(words: &[&str]) -> Result<usize, Puzzle> {
    match words {
        [k] => large(k),
        _ => Err(Puzzle::TakesOne),
    }
}

/// A number of 16 bits, in digits.
pub(crate) fn small(word: &str) -> Result<u16, Puzzle> {
    u16::try_from(large(word)?).map_err(|_| Puzzle::Above65535)
}

// A number of 64 bits, in digits and nothing else.
fn large(word: &str) -> Result<usize, Puzzle> {
    if !word.bytes().all(|byte| byte.is_ascii_digit()) {
        return Err(Puzzle::NotDigits);
    }
    word.parse::<usize>().map_err(|_| Puzzle::TooLarge)
}
