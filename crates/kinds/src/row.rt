//! A row as the kinds see it.
use crate::item::Item;

/// What a row says: the code of its kind, and its items.
#[derive(Clone, Copy, PartialEq, Eq, Debug)]
pub struct Row<'a> {
    // Kept as it is: a rule of the project names kinds by numbers, here and in what asks by code.
    pub code: u8,
    pub items: &'a [Item],
}
