//! How rows are kept.
ghost use Rattle.std.specs.Prelude.{◌≤◌, length};
ghost use Rattle.flat.specs.Spans.{items_in};
ghost use Rattle.flat.specs.Views.{lists_of};

use flat::lists::Lists;
use kinds::item::Item;

/// Rows in the order of posting, each a list of items under its code: at most 1,024, with at most 4,096 items in all.
#[derive(Drop)]
pub struct Rows {
    pub(crate) lists: Lists<u8, Item>,
    ghost few: { length (lists_of lists) ≤ 1024 },
    ghost short: { items_in (lists_of lists) ≤ 4096 },
}
