//! How the lists are kept.
ghost use Rattle.std.specs.Prelude.{◌≡◌, map, vec_len};
ghost use Rattle.std.specs.List.{All};
ghost use Rattle.flat.specs.Spans.{IsWithin, list_at, items_in};

mod filling;
mod reading;
pub mod walking;

/// A list's head, and where the list stands among all items: from `from` on and before `to`.
#[derive(Clone, Copy, Drop)]
pub struct Span<H> {
    pub(crate) head: H,
    pub(crate) from: usize,
    pub(crate) to: usize,
}

/// Lists of items, each with a head, one after the other.
// Kept as it is: a rule of the project needs the one list of items: nothing is allocated for each list, and one
// `reserve` finds the memory of many.
#[derive(Drop)]
pub struct Lists<H, T> {
    pub(crate) spans: Vec<Span<H>>,
    pub(crate) items: Vec<T>,
    ghost within: { All (IsWithin (vec_len items)) spans.items },
    ghost counted: { vec_len items ≡ items_in (map (list_at items.items) spans.items) },
}
