//! Whether two points that a row sets apart are marked, one in each of two tables.
ghost use Rattle.std.specs.Prelude.{◌≡◌, ℕ, Option, slice_index};
ghost use Rattle.schema.specs.declared.row.Row.{Row as RowMeaning};
ghost use Rattle.schema.specs.Rows.{Sound};
ghost use Rattle.schema.specs.Verdicts.{Tells};
ghost use Rattle.schema.specs.Keys.{arrows_apart, descriptions_apart, BothMarked, TornBy};

use crate::arrows::Arrows;
use crate::description::Description;
use crate::descriptions::Descriptions;
use crate::row::Row;
use crate::sound_sheet::SoundSheet;

/// A web with pairs of points that rows set apart.
pub(crate) trait Clashes {
    ghost apart: { RowMeaning → Option (ℕ × ℕ) };

    // Here and in a question a sound row is a `Row` that is known to be sound: a type of sound rows would be made of each
    // row that a sheet lends.
    /// The two points that a row sets apart.
    fn apart(row: Row) -> Option<(usize, usize)>
        requires { Sound 64 32 row }
        ensures { result ≡ apart row };
}

impl Clashes for Arrows {
    ghost apart = { arrows_apart };

    fn apart(row: Row) -> Option<(usize, usize)> {
        // a byte, as `Row` has it
        match row.letter {
            b'Q' => Some((usize::from(row.a), usize::from(row.b))),
            _ => None,
        }
    }
}

impl Clashes for Descriptions {
    ghost apart = { descriptions_apart };

    // A cap clashes with the first mark above it.
    fn apart(row: Row) -> Option<(usize, usize)> {
        let a = usize::from(row.a);
        let b = usize::from(row.b);
        let n = usize::from(row.n);
        // a byte, as `Row` has it
        let (one, two) = match row.letter {
            b'X' => (Description::class(a), Description::class(b)),
            b'K' => (Description::class(a), Description::mark(b, n + 1)),
            _ => return None,
        };
        Some((one.point(), two.point()))
    }
}

/// Whether a row sets two points of a web apart, one marked in each table.
pub(crate) fn torn<W: Clashes>(sheet: &SoundSheet, first: &[u8], second: &[u8]) -> bool
    ensures { Tells result (TornBy W.apart sheet.now.rows.items first.now second.now) }
{
    sheet
        .rows()
        .iter()
        .any(|row| both_marked::<W>(*row, first, second))
}

// A row says in one order what clashes either way round.
fn both_marked<W: Clashes>(row: Row, first: &[u8], second: &[u8]) -> bool
    requires { Sound 64 32 row }
    ensures { Tells result (BothMarked W.apart row first.now second.now) }
{
    match W::apart(row) {
        Some((one, two)) => is_marked(first, one) && is_marked(second, two)
            || is_marked(first, two) && is_marked(second, one),
        None => false,
    }
}

fn is_marked(marks: &[u8], point: usize) -> bool
    ensures { Tells result (slice_index marks.now point ≡ 1) }
{
    // a byte, as the search writes it
    marks.get(point) == Some(&1)
}
