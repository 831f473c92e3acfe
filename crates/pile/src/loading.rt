//! Loading a text into a part of a pile.
ghost use Rattle.std.specs.Prelude.{◌≡◌, ◌+◌, ◌≤◌, length};
ghost use Rattle.pile.specs.Lives.{Loading};
ghost use Rattle.pile.specs.Plain.{grown, top};

use crate::part::Part;
use schema::faults::LoadFault;
use schema::loading::admit;
use schema::row::Row;

/// Puts all rows of a text into a part in their order, or says why the part stays as it was. Each row goes in by the
/// part's own call, so that one knows what becomes of the plain pile and not only what is shown.
pub fn load_part<P: Part>(part: &mut P, text: &[u8]) -> Result<(), LoadFault>
    ensures { Loading (P.Part.plain part.old) text.now result (P.Part.plain part.new) }
{
    let told = admit(&*part, text)?;
    put_all(part, told.rows());
    Ok(())
}

// Puts in rows for which there is room. A closure would not make one of this and schema's own loop over `enter`: what
// the two calls ensure differs, and the loops are two lines.
fn put_all<P: Part>(part: &mut P, rows: &[Row])
    requires { length (top (P.Part.plain part.old)).rows + length rows.now ≤ (top (P.Part.plain part.old)).capacity }
    ensures { P.Part.plain part.new ≡ grown (P.Part.plain part.old) rows.now }
{
    for row in rows {
        part.put(*row).unwrap();
    }
}
