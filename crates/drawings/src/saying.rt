//! What the verdict and the question say of each drawing.
ghost use Rattle.std.specs.Prelude.{◌≡◌, ◌≤◌, length, IfOk};
ghost use Rattle.schema.specs.Books.{book_shows};
ghost use Rattle.schema.specs.Rows.{◌∈◌};
ghost use Rattle.drawings.specs.Drawings.{Drawing, drawings, asked_row, Draws, Holds, comes_at, branching, OnlyEndless};

use crate::given::given_at;
use crate::told::Told;
use schema::book::Book;
use schema::faults::Notice;
use schema::question::question;
use schema::row::Row;
use schema::sheet::Sheet;
use schema::verdict::verdict;
use std::alloc::{AllocError, Global};

/// Draws number `line` of the table, and answers what is said of it; `None` past the table's end.
///
/// One line, `branching`, forces nothing empty, though only endless data fills its class 0.
pub fn draw(heap: Global, line: usize) -> Result<Option<Told>, AllocError>
    ensures said { IfOk result (λ said. said ≡ comes_at line) }
    ensures endless { OnlyEndless branching 0 }
{
    let Some(given) = given_at(line) else {
        return Ok(None);
    };
    let book = book_of(heap, given.rows)?;
    Ok(Some(tell(&book, given.asked)))
}

// What the verdict on a sheet lists, or, where a row is asked, what the question answers.
fn tell<S: Sheet>(sheet: &S, asked: Option<Row>) -> Told
    ensures { (d : Drawing) → d ∈ drawings → Draws d (S.Sheet.shows sheet.now) → asked ≡ asked_row d.asked → result ≡ d.comes }
{
    let Some(row) = asked else {
        let mut table = [0; 6];
        return match verdict(sheet, &mut table) {
            Ok(_) => Told::Table(table),
            Err(fault) => Told::Refusal(Notice::from(fault)),
        };
    };
    match question(sheet, row) {
        Ok(yes) => Told::Answer(yes),
        Err(fault) => Told::Refusal(Notice::from(fault)),
    }
}

// A book of four classes and two arrows, with these rows.
fn book_of(heap: Global, rows: &[Row]) -> Result<Book, AllocError>
    requires { length rows.now ≤ 384 }
    ensures { IfOk result (λ b. Holds (book_shows b) rows.now) }
{
    let mut book = Book::new(heap)?;
    book.set_up(4, 2).unwrap();
    for row in rows {
        book.enter(*row).unwrap();
    }
    Ok(book)
}
