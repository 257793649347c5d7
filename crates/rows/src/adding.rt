//! No rows, and one row more.
ghost use Rattle.std.specs.Prelude.{◌≡◌, true, [], length, MatchResult};
ghost use Rattle.rows.specs.Rows.{rows_of, Adds, Spare, Keeps, answered};

use crate::storage::Rows;
use flat::lists::Lists;
use kinds::item::Item;
use std::alloc::{AllocError, Global};

const MOST_ROWS: usize = 1024;

const MOST_ITEMS: usize = 4096;

/// Why a row was not added.
#[derive(Clone, Copy, PartialEq, Eq, Debug)]
pub enum RowsError {
    TooManyRows,
    TooManyItems,
    NoMemory,
}

impl From<AllocError> for RowsError {
    ghost use Rattle.rows.specs.declared.adding.RowsError.TheVariants.{NoMemory};

    ghost from_gives = { λ _ e. e ≡ NoMemory };

    fn from(_: AllocError) -> RowsError {
        RowsError::NoMemory
    }
}

impl Rows {
    /// No rows.
    pub fn new(heap: Global) -> Rows
        ensures { rows_of result ≡ [] }
    {
        Rows {
            lists: Lists::new(heap),
        }
    }

    /// Finds memory for `rows` rows more, with `items` items in all.
    pub fn reserve(&mut self, rows: usize, items: usize) -> Result<(), AllocError>
        ensures same { rows_of self.new ≡ rows_of self.old }
        ensures room { MatchResult result (λ _. Spare self.new rows items) (λ _. (Spare self.old rows items → ⊥)) }
        ensures kept { Keeps self.old self.new }
    {
        self.lists.reserve(rows, items)
    }

    // Kept as it is: a `Row` as the parameter is no plainer, since who adds a row has its code and items apart.
    /// Adds a row, and answers its place.
    pub fn add(&mut self, code: u8, items: &[Item]) -> Result<usize, RowsError>
        ensures adds { Adds (rows_of self.old) code items.now result (rows_of self.new) }
        ensures spare { Spare self.old 1 (length items.now) → answered result ≡ true }
        ensures kept { Keeps self.old self.new }
    {
        let place = self.lists.len();
        if place >= MOST_ROWS {
            return Err(RowsError::TooManyRows);
        }
        if items.len() > MOST_ITEMS - self.lists.items_in_all() {
            return Err(RowsError::TooManyItems);
        }
        self.lists.push(code, items)?;
        Ok(place)
    }
}
