//! Whether values meet the rows.
ghost use Rattle.std.specs.Prelude.{◌≡◌, length};
ghost use Rattle.kinds.specs.Meaning.{valued};
ghost use Rattle.rows.specs.Rows.{rows_of, posted};
ghost use Rattle.promise.specs.Readings.{first_failing};

use kinds::kinds::Kinds;
use rows::storage::Rows;

/// The place of the first row that the values do not meet.
pub fn first_unmet<K: Kinds>(rows: &Rows, values: &[u8]) -> Option<usize>
    ensures { result ≡ first_failing (λ p. (K.Kinds.meaning (posted (rows_of rows.now) p).code).meets (posted (rows_of rows.now) p).items (valued values.now)) 0 (length (rows_of rows.now)) }
{
    (0..rows.len()).find(|place| !K::met(rows.row(*place), values))
}
