//! Going over the lists in order.
ghost use Rattle.std.specs.Prelude.{◌≡◌, length};
ghost use Rattle.std.specs.List.{All};
ghost use Rattle.flat.specs.Spans.{IsWithin};

use super::{Lists, Span};

/// The lists that are left, each with its head.
#[derive(Drop)]
pub struct Iter<'a, H, T> {
    spans: &'a [Span<H>],
    items: &'a [T],
    ghost within: { All (IsWithin (length items.now)) spans.now },
}

impl<'a, H: Copy, T: Copy> Iterator for Iter<'a, H, T> {
    ghost use Rattle.std.specs.Iterator.{YieldsFirstBy, item_count};
    ghost use Rattle.flat.specs.Walks.{left, list_of};

    type Item = (H, &'a [T]);

    ghost next_gives = { YieldsFirstBy list_of left };

    ghost remaining = { item_count left };

    fn next(&mut self) -> Option<(H, &'a [T])> {
        let (span, others) = self.spans.split_first()?;
        let list = span.list(self.items);
        self.spans = others;
        Some((span.head, list))
    }
}

impl<H: Copy, T: Copy> Lists<H, T> {
    ghost use Rattle.flat.specs.Views.{lists_of};
    ghost use Rattle.flat.specs.Walks.{left};

    /// The lists in order, each with its head.
    pub fn iter(&self) -> Iter<'_, H, T>
        ensures { left result ≡ lists_of self.now }
    {
        Iter {
            spans: &self.spans,
            items: &self.items,
        }
    }
}

impl<'a, H: Copy, T: Copy> IntoIterator for &'a Lists<H, T> {
    ghost use Rattle.flat.specs.Views.{lists_of};
    ghost use Rattle.flat.specs.Walks.{left};

    type Item = (H, &'a [T]);

    type IntoIter = Iter<'a, H, T>;

    ghost into_iter_gives = { λ lists it. left it ≡ lists_of lists.now };

    fn into_iter(self) -> Iter<'a, H, T> {
        self.iter()
    }
}
