//! No lists, and one list more.
ghost use Rattle.std.specs.Prelude.{◌≡◌, [], ◌∷◌, ◌++◌, length, is_ok, IsOk, MatchResult, if◌then◌else◌};
ghost use Rattle.flat.specs.Spans.{headed};
ghost use Rattle.flat.specs.Views.{lists_of, Spare, Keeps};

use super::{Lists, Span};
use std::alloc::{AllocError, Global};

impl<H: Copy, T: Copy> Lists<H, T> {
    /// No lists.
    pub fn new(heap: Global) -> Lists<H, T>
        ensures { lists_of result ≡ [] }
    {
        Lists {
            spans: Vec::new(heap),
            items: Vec::new(heap),
        }
    }

    /// Lets all lists go, and keeps the memory.
    pub fn clear(&mut self)
        ensures none { lists_of self.new ≡ [] }
        ensures kept { Keeps self.old self.new }
    {
        self.spans.clear();
        self.items.clear();
    }

    /// Finds memory for `lists` lists more, with `items` items in all.
    pub fn reserve(&mut self, lists: usize, items: usize) -> Result<(), AllocError>
        ensures same { lists_of self.new ≡ lists_of self.old }
        ensures room { MatchResult result (λ _. Spare self.new lists items) (λ _. (Spare self.old lists items → ⊥)) }
        ensures kept { Keeps self.old self.new }
    {
        self.spans.reserve(lists)?;
        self.items.reserve(items)?;
        Ok(())
    }

    /// Adds a list at the end, or nothing for want of memory.
    pub fn push(&mut self, head: H, list: &[T]) -> Result<(), AllocError>
        ensures lists { lists_of self.new ≡ (if is_ok result then lists_of self.old ++ headed head list.now ∷ [] else lists_of self.old) }
        ensures spare { Spare self.old 1 (length list.now) → IsOk result }
        ensures kept { Keeps self.old self.new }
    {
        self.reserve(1, list.len())?;
        let from = self.items.len();
        self.items.extend_from_slice(list)?;
        self.spans.push_reserved(Span {
            head,
            from,
            to: self.items.len(),
        });
        Ok(())
    }
}
