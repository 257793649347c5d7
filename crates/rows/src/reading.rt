//! How many rows there are, and what each says.
ghost use Rattle.std.specs.Prelude.{◌≡◌, length};
ghost use Rattle.rows.specs.Rows.{rows_of, items_in, posted};

use crate::storage::Rows;
use kinds::item::Item;
use kinds::row::Row;

impl Rows {
    /// How many rows there are.
    pub fn len(&self) -> usize
        ensures { result ≡ length (rows_of self.now) }
    {
        self.lists.len()
    }

    /// How many items the rows have in all.
    pub fn items_in_all(&self) -> usize
        ensures { result ≡ items_in (rows_of self.now) }
    {
        self.lists.items_in_all()
    }

    /// The code of the row at a place; 0 where there is none.
    pub fn code(&self, place: usize) -> u8
        ensures { result ≡ (posted (rows_of self.now) place).code }
    {
        self.lists.head(place).unwrap_or(0)
    }

    /// The items of the row at a place; none where there is no row.
    pub fn items(&self, place: usize) -> &[Item]
        ensures { result.now ≡ (posted (rows_of self.now) place).items }
    {
        self.lists.at(place)
    }

    /// The row at a place: its code and its items; code 0 and no items where there is none.
    pub fn row(&self, place: usize) -> Row<'_>
        ensures code { result.code ≡ (posted (rows_of self.now) place).code }
        ensures items { result.items.now ≡ (posted (rows_of self.now) place).items }
    {
        Row {
            code: self.code(place),
            items: self.items(place),
        }
    }
}
