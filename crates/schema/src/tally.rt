//! Counting in a verdict's table, where a byte of 1 marks its name.
ghost use Rattle.std.specs.Prelude.{◌≡◌, ◌≤◌, length, count_by, nat_eq};

/// How many bytes of a table are 1.
pub(crate) fn count_ones(table: &[u8]) -> usize
    ensures counted { result ≡ count_by (λ b. nat_eq b 1) table.now }
    ensures few { result ≤ length table.now }
{
    table.iter().filter(|byte| **byte == 1).count()
}
