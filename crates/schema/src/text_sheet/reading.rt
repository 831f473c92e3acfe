//! Reading a text, line by line.
ghost use Rattle.std.specs.Prelude.{◌≡◌, ℕ, MatchResult};
ghost use Rattle.arrayvec.specs.ArrayVec.{array_vec_len};
ghost use Rattle.schema.specs.Texts.{TextFaulty};
ghost use Rattle.schema.specs.Columns.{Headed, RowsRead};
ghost use Rattle.schema.specs.TextSheets.{text_shows, text_bounded, TextRead, TextShown};

use super::TextSheet;
use crate::counts::Counts;
use crate::faults::{EnterFault, TextFault};
use crate::limits::{LINE_BYTES, MOST_ROWS};
use crate::lines::{header_line, row_line};
use crate::row::Row;
use crate::sheet::Sheet;
use arrayvec::ArrayVec;

impl TextSheet {
    /// Reads a text, or says the first thing that is wrong with it.
    pub fn read(text: &[u8]) -> Result<TextSheet, TextFault>
        ensures { MatchResult result (λ t. TextRead text.now (text_shows t)) (λ f. TextFaulty text.now f) }
    {
        let counts = read_header(text)?;
        let rows = read_rows(text, counts)?;
        Ok(TextSheet { counts, rows })
    }

    /// The sheet of a text, which is empty where the text is refused.
    pub fn new(text: &[u8]) -> TextSheet
        ensures { TextShown text.now (text_shows result) }
    {
        match TextSheet::read(text) {
            Ok(sheet) => sheet,
            Err(_) => TextSheet {
                counts: Counts::NONE,
                rows: ArrayVec::new(),
            },
        }
    }

    /// Its rows, in their order.
    pub fn rows(&self) -> &[Row]
        ensures { result.now ≡ (text_shows self.now).rows }
    {
        self.rows.as_slice()
    }
}

impl Sheet for TextSheet {
    ghost shows = { text_shows };

    ghost bounded = { text_bounded };

    fn classes(&self) -> u16 {
        self.counts.classes
    }

    fn arrows(&self) -> u16 {
        self.counts.arrows
    }

    fn capacity(&self) -> usize {
        self.rows.len()
    }

    fn len(&self) -> usize {
        self.rows.len()
    }

    fn row(&self, k: usize) -> Option<Row> {
        self.rows.get(k).copied()
    }

    // A text's sheet is always full.
    fn enter(&mut self, _row: Row) -> Result<(), EnterFault> {
        Err(EnterFault::Full)
    }
}

// The counts of line 1, once it is in form, within the limits and true of the text's length.
fn read_header(text: &[u8]) -> Result<Counts, TextFault>
    ensures { MatchResult result (λ c. (n : ℕ) × Headed text.now c.classes c.arrows n) (λ f. TextFaulty text.now f) }
{
    let first = text.first_chunk::<LINE_BYTES>().ok_or(TextFault::TooShort)?;
    let header = header_line(first)?;
    let counts = Counts::within(header.classes, header.arrows).ok_or(TextFault::TooLarge)?;
    let len = usize::from(header.rows);
    if len > MOST_ROWS {
        return Err(TextFault::TooLarge);
    }
    if text.len() != LINE_BYTES * (len + 1) {
        return Err(TextFault::WrongLength);
    }
    Ok(counts)
}

// The rows of the lines after the first.
fn read_rows(text: &[u8], counts: Counts) -> Result<ArrayVec<Row, MOST_ROWS>, TextFault>
    requires { (n : ℕ) × Headed text.now counts.classes counts.arrows n }
    ensures { MatchResult result (λ rows. Headed text.now counts.classes counts.arrows (array_vec_len rows) × RowsRead text.now counts.classes counts.arrows rows.items) (λ f. TextFaulty text.now f) }
{
    let mut rows = ArrayVec::new();
    let (lines, _) = text[LINE_BYTES..].as_chunks::<LINE_BYTES>();
    for (i, line) in lines.iter().enumerate() {
        // a cast, since `try_from` would add an error that cannot come
        let number = (i + 2) as u16;
        let row = row_line(line, number, counts)?;
        rows.push(row);
    }
    Ok(rows)
}
