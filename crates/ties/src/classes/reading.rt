//! How many bits there are, and which literals are tied.
ghost use Rattle.std.specs.Prelude.{◌≡◌, ◌≤◌, true, length};
ghost use Rattle.ties.specs.Relations.{IsTies, Consistent};
ghost use Rattle.ties.specs.Roots.{rank, root_at, root_by, tied, free};
ghost use Rattle.ties.specs.Views.{roots_of};

use super::Ties;
use order::literal::{Literal, entry_or};

impl Ties {
    /// How many bits there are.
    pub fn len(&self) -> usize
        ensures { result ≡ length (roots_of self.now) }
    {
        self.roots.len()
    }

    /// How many bits are their own root.
    pub fn free(&self) -> usize
        ensures { result ≡ free (roots_of self.now) }
    {
        (1..self.roots.len() as u16 + 1)
            .zip(&self.roots)
            .map(|(n, root)| usize::from(*root == Literal::Bit(n)))
            .sum()
    }

    // The root of bit `n`: the bit itself where it is not there.
    fn bit_root(&self, n: u16) -> Literal
        ensures { result ≡ root_at (roots_of self.now) n }
    {
        entry_or(&self.roots, n, Literal::Bit(n))
    }

    /// The first literal that is tied to `l`: `l` itself where its bit is not there.
    pub fn root(&self, l: Literal) -> Literal
        ensures value { result ≡ root_by (root_at (roots_of self.now)) l }
        ensures first { (tied (root_at (roots_of self.now)) l result ≡ true) × ((y : Literal) → tied (root_at (roots_of self.now)) l y ≡ true → rank result ≤ rank y) }
    {
        match l {
            Literal::Bit(n) => self.bit_root(n),
            Literal::Not(n) => self.bit_root(n).opposite(),
            constant => constant,
        }
    }

    // Whether `a` and `b` have one root.
    fn share_root(&self, a: Literal, b: Literal) -> bool
        ensures { result ≡ tied (root_at (roots_of self.now)) a b }
    {
        self.root(a) == self.root(b)
    }

    /// Whether `a` and `b` are tied.
    pub fn tied(&self, a: Literal, b: Literal) -> bool
        ensures value { result ≡ tied (root_at (roots_of self.now)) a b }
        ensures ties { IsTies (tied (root_at (roots_of self.now))) }
        ensures consistent { Consistent (tied (root_at (roots_of self.now))) }
    {
        self.share_root(a, b)
    }
}
