//! What every sheet shows, and how a row is entered.
ghost use Rattle.std.specs.Prelude.{◌≡◌, length};
ghost use Rattle.std.specs.List.{slice_get};
ghost use Rattle.schema.specs.Sheets.{Shown, Bounded, Entered};

use crate::faults::EnterFault;
use crate::row::Row;

/// Two counts, a list of rows numbered from 0, and a capacity.
///
/// What is generic over `Sheet` is proved of every sheet that shows this, whoever writes it.
pub trait Sheet {
    ghost shows: { Self → Shown };

    ghost bounded: { (s : Self) → Bounded (shows s) };

    fn classes(&self) -> u16
        ensures { result ≡ (shows self.now).classes };

    fn arrows(&self) -> u16
        ensures { result ≡ (shows self.now).arrows };

    /// The most rows that the sheet can show.
    fn capacity(&self) -> usize
        ensures { result ≡ (shows self.now).capacity };

    /// The number of rows.
    fn len(&self) -> usize
        ensures { result ≡ length (shows self.now).rows };

    /// Row k, for any k: `None` where there is no such row.
    fn row(&self, k: usize) -> Option<Row>
        ensures { result ≡ slice_get (shows self.now).rows k };

    /// Puts a row at the end, unless the sheet is at full capacity.
    fn enter(&mut self, row: Row) -> Result<(), EnterFault>
        ensures { Entered (shows self.old) row result (shows self.new) };
}
