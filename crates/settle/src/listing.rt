//! Lists of one part at a time, in memory that is used again.
ghost use Rattle.std.specs.Prelude.{◌≡◌, []};
ghost use Rattle.flat.specs.Views.{lists_of};
ghost use Rattle.settle.specs.Listed.{Takes, Listed, Told};

use flat::lists::Lists;
use kinds::item::Tie;
use kinds::listen::Listener;
use order::bound::Bound;
use order::visit::Visitor;
use std::alloc::{AllocError, Global};

/// The lists that it was shown, and whether memory was found for all of them. The memory stays for the next lists:
/// a visitor of clauses keeps each as a list, and a listener each pairing as its premise, headed by the tie that it gives.
#[derive(Drop)]
pub struct Listing<H, T> {
    pub(crate) lists: Lists<H, T>,
    pub(crate) taken: Result<(), AllocError>,
}

impl<H: Copy, T: Copy> Listing<H, T> {
    /// No lists.
    pub(crate) fn new(heap: Global) -> Listing<H, T> {
        Listing {
            lists: Lists::new(heap),
            taken: Ok(()),
        }
    }

    /// Lets all lists go.
    pub(crate) fn restart(&mut self)
        ensures none { lists_of self.new.lists ≡ [] }
        ensures taken { self.new.taken ≡ Ok tt }
    {
        self.lists.clear();
        self.taken = Ok(());
    }

    // Takes a list more, unless memory was lacking before.
    fn take(&mut self, head: H, list: &[T])
        ensures { Takes self.old head list.now self.new }
    {
        if self.taken.is_ok() {
            self.taken = self.lists.push(head, list);
        }
    }
}

impl Visitor for Listing<(), Bound> {
    ghost step = { Listed };

    fn visit(&mut self, clause: &[Bound]) {
        self.take((), clause);
    }
}

impl Listener for Listing<Tie, Tie> {
    ghost hears = { Told };

    fn hear(&mut self, premise: &[Tie], gives: Tie) {
        self.take(gives, premise);
    }
}
