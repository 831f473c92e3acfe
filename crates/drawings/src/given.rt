//! The rows of each drawing, and the row that is asked.
ghost use Rattle.std.specs.Prelude.{◌≤◌, length, IfSome};
ghost use Rattle.drawings.specs.Drawings.{IsGiven};

use schema::row::Row;

/// The rows of a drawing, and an asked row where there is a question.
#[derive(Clone, Copy)]
pub(crate) struct Given {
    pub(crate) rows: &'static [Row],
    pub(crate) asked: Option<Row>,
}

// A row as it is written in a text: its letter, and the numbers that the letter has.
macro_rules! row {
    (S $a:literal $b:literal) => { row!(b'S', $a, $b, 0) };
    (X $a:literal $b:literal) => { row!(b'X', $a, $b, 0) };
    (D $e:literal $b:literal) => { row!(b'D', $e, $b, 0) };
    (F $a:literal $e:literal $n:literal) => { row!(b'F', $a, $e, $n) };
    (K $a:literal $e:literal $n:literal) => { row!(b'K', $a, $e, $n) };
    (P $p:literal $q:literal) => { row!(b'P', $p, $q, 0) };
    (Q $p:literal $q:literal) => { row!(b'Q', $p, $q, 0) };
    ($letter:literal, $a:literal, $b:literal, $n:literal) => { Row { letter: $letter, a: $a, b: $b, n: $n } };
}

// Rows, and after a semicolon the asked one.
macro_rules! given {
    ($($letter:ident $($n:literal)+),*) => {
        Some(Given { rows: &[$(row!($letter $($n)+)),*], asked: None })
    };
    ($($letter:ident $($n:literal)+),*; $asked:ident $($k:literal)+) => {
        Some(Given { rows: &[$(row!($letter $($n)+)),*], asked: Some(row!($asked $($k)+)) })
    };
}

/// Drawing number `line`, where there is one.
pub(crate) fn given_at(line: usize) -> Option<Given>
    ensures given { IsGiven line result }
    ensures few { IfSome result (λ g. length g.rows.now ≤ 384) }
{
    match line {
        0 => given![],
        1 => given![X 0 0],
        2 => given![F 0 0 2, K 0 0 1],
        3 => given![F 0 0 2, K 0 0 2],
        4 => given![D 1 1, D 1 2, X 1 2, F 0 0 1],
        5 => given![P 0 1, Q 0 1],
        6 => given![P 0 1, K 0 2 1],
        7 => given![P 0 1, K 0 0 1],
        8 => given![F 0 0 2, P 0 1; F 0 2 1],
        9 => given![F 0 0 2, P 0 1; F 0 0 3],
        10 => given![F 0 0 2, P 0 1; F 0 2 2],
        11 => given![D 0 0, D 2 1, X 0 1; Q 0 1],
        12 => given![D 0 0, D 2 1, Q 0 1; X 0 1],
        13 => given![F 0 0 2, D 1 0, K 0 1 1],
        14 => given![X 0 0; S 0 1],
        15 => given![X 0 0; S 1 0],
        16 => given![X 0 0; X 1 0],
        _ => None,
    }
}
