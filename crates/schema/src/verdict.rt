//! The verdict: which classes and arrows the rows of a sheet force empty.
ghost use Rattle.std.specs.Prelude.{◌≡◌, ℕ, ◌+◌, ◌-◌, ◌*◌, ◌<◌, ◌≤◌, length, drop, count_by, nat_eq, slice_index};
ghost use Rattle.schema.specs.Verdicts.{Judged, Verdict};

use crate::counts::Counts;
use crate::faults::VerdictFault;
use crate::keys::empty_keys;
use crate::schema::Schema;
use crate::sheet::Sheet;
use crate::tally::count_ones;

/// Writes 1 for each name that the rows force empty and 0 for each other, classes first; leaves the later bytes, and
/// answers the number of ones.
pub fn verdict<S: Sheet>(sheet: &S, table: &mut [u8]) -> Result<usize, VerdictFault>
    ensures { Verdict (S.Sheet.shows sheet.now) table.old result table.new }
{
    let schema = Schema::of(sheet)?;
    judge(&schema, table)
}

// The verdict on a schema.
fn judge(schema: &Schema, table: &mut [u8]) -> Result<usize, VerdictFault>
    ensures { Judged schema.now.sheet.counts.classes schema.now.sheet.counts.arrows schema.now.sheet.rows.items table.old result table.new }
{
    let counts = schema.sheet.counts;
    let names = counts.names();
    if table.len() < names {
        return Err(VerdictFault::ShortTable);
    }
    let empty = empty_keys(schema);
    write_names(table, counts, &empty);
    Ok(count_ones(&table[..names]))
}

// Writes the byte of each class and then that of each arrow, which is empty with its tail.
fn write_names(table: &mut [u8], counts: Counts, empty: &[u8; 129])
    requires { counts.classes + counts.arrows ≤ length table.old }
    ensures classes { (k : ℕ) → k < counts.classes → slice_index table.new k ≡ slice_index empty.now k }
    ensures arrows { (k : ℕ) → k < counts.arrows → slice_index table.new (counts.classes + k) ≡ slice_index empty.now (64 + 2 * k) }
    ensures later { drop (counts.classes + counts.arrows) table.new ≡ drop (counts.classes + counts.arrows) table.old }
{
    let classes = usize::from(counts.classes);
    table[..classes].copy_from_slice(&empty[..classes]);
    // by its number, since the tail of arrow p is key 64 + 2·p
    for arrow in 0..usize::from(counts.arrows) {
        table[classes + arrow] = empty[64 + 2 * arrow];
    }
}
