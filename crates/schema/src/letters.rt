//! The seven letters of a row, and which fields are sound under each.
ghost use Rattle.std.specs.Prelude.{◌≡◌, ◌*◌, MatchOption};
ghost use Rattle.schema.specs.Rows.{shapes, shape_of, limit, Sound, Unsound};

use crate::row::Row;

/// What a number of a row names.
#[derive(Clone, Copy, PartialEq, Eq, Debug)]
pub enum Kind {
    Class,
    Arrow,
    End,
}

/// The kind of each field under one letter: what a and b name, and the range of n.
#[derive(Clone, Copy, PartialEq, Eq, Debug)]
pub struct Shape {
    pub letter: u8,
    pub a: Kind,
    pub b: Kind,
    pub least: u16,
    pub most: u16,
}

/// The seven letters.
pub const SHAPES: [Shape; 7] = [
    Shape {
        letter: b'S',
        a: Kind::Class,
        b: Kind::Class,
        least: 0,
        most: 0,
    },
    Shape {
        letter: b'X',
        a: Kind::Class,
        b: Kind::Class,
        least: 0,
        most: 0,
    },
    Shape {
        letter: b'D',
        a: Kind::End,
        b: Kind::Class,
        least: 0,
        most: 0,
    },
    Shape {
        letter: b'F',
        a: Kind::Class,
        b: Kind::End,
        least: 1,
        most: 30,
    },
    Shape {
        letter: b'K',
        a: Kind::Class,
        b: Kind::End,
        least: 1,
        most: 30,
    },
    Shape {
        letter: b'P',
        a: Kind::Arrow,
        b: Kind::Arrow,
        least: 0,
        most: 0,
    },
    Shape {
        letter: b'Q',
        a: Kind::Arrow,
        b: Kind::Arrow,
        least: 0,
        most: 0,
    },
];

/// The shape of a row with this letter, if it is one of the seven.
pub fn shape_of(letter: u8) -> Option<Shape>
    ensures { result ≡ shape_of letter }
{
    // a table of its own, of which the compiler knows each line: a test of a row takes half as long again without
    let table = SHAPES;
    table.iter().find(|shape| shape.letter == letter).copied()
}

/// The first field of the row, from 1 for the letter to 4 for n, that is unsound for these counts.
pub fn unsound_field(row: Row, classes: u16, arrows: u16) -> Option<u16>
    ensures { MatchOption result (Sound classes arrows row) (λ k. Unsound classes arrows row k) }
{
    // a field by its number, as the format counts them and a notice prints it
    let Some(shape) = shape_of(row.letter) else {
        return Some(1);
    };
    if u32::from(row.a) >= bound(shape.a, classes, arrows) {
        return Some(2);
    }
    if u32::from(row.b) >= bound(shape.b, classes, arrows) {
        return Some(3);
    }
    if row.n < shape.least || row.n > shape.most {
        return Some(4);
    }
    None
}

// How many there are of a kind: an arrow has two ends. Two numbers and not `Counts`, since a row may be asked about under
// any counts.
fn bound(kind: Kind, classes: u16, arrows: u16) -> u32
    ensures { result ≡ limit classes arrows kind }
{
    match kind {
        Kind::Class => u32::from(classes),
        Kind::Arrow => u32::from(arrows),
        Kind::End => 2 * u32::from(arrows),
    }
}
