//! Calls on an open job, and what they answer, as data.
use crate::refusal::Refusal;
use kinds::item::Item;

/// A call on an open job.
// Kept as it is: codes and relations are numbers, as a rule of the project needs: a call may carry one that is refused.
#[derive(Drop)]
pub enum Call {
    /// A variable from a low to a high.
    Declare(u32, u32),
    /// A row: a code and its items.
    Post(u8, Vec<Item>),
    /// A total: a relation, the target, and the items that are added up.
    Total(u8, Item, Vec<Item>),
    /// Ties are made until they are closed.
    Settle,
}

/// What a call that was taken replies.
#[derive(Clone, Copy, PartialEq, Eq, Debug)]
pub enum Reply {
    /// The place of the variable or the row.
    Placed(usize),
    /// Void or not, ties made, free bits left.
    // Kept as it is: a rule of the project needs the flag and the two counts side by side.
    Settled(bool, usize, usize),
}

/// What a call answered: a reply, or the first no.
pub type Answer = Result<Reply, Refusal>;
