//! How many lists there are, and each of them.
ghost use Rattle.std.specs.Prelude.{◌≡◌, [], map, length, slice_get, slice_index_or, slice_range};
ghost use Rattle.flat.specs.Spans.{IsWithin, items_in};
ghost use Rattle.flat.specs.Views.{lists_of};

use super::{Lists, Span};

impl<H> Span<H> {
    // The span's list among the items.
    pub(crate) fn list<'a, T>(&self, items: &'a [T]) -> &'a [T]
        requires { IsWithin (length items.now) self.now }
        ensures { result.now ≡ slice_range items.now self.now.from self.now.to }
    {
        &items[self.from..self.to]
    }
}

impl<H: Copy, T: Copy> Lists<H, T> {
    /// How many lists there are.
    pub fn len(&self) -> usize
        ensures { result ≡ length (lists_of self.now) }
    {
        self.spans.len()
    }

    /// How many items the lists have in all.
    pub fn items_in_all(&self) -> usize
        ensures { result ≡ items_in (lists_of self.now) }
    {
        self.items.len()
    }

    /// The head of the list at a place.
    pub fn head(&self, place: usize) -> Option<H>
        ensures { result ≡ slice_get (map (λ l. l.head) (lists_of self.now)) place }
    {
        self.spans.get(place).map(|span| span.head)
    }

    /// The list at a place; one with no items where there is none.
    pub fn at(&self, place: usize) -> &[T]
        ensures { result.now ≡ slice_index_or (map (λ l. l.items) (lists_of self.now)) place [] }
    {
        // Kept as it is: `map_or` was tried and is no plainer: its closure needs a clause of its own.
        match self.spans.get(place) {
            Some(span) => span.list(&self.items),
            None => &[],
        }
    }
}
