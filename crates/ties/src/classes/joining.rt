//! Tying two literals.
ghost use Rattle.std.specs.Prelude.{◌≡◌, false, ◌&&◌, length};
ghost use Rattle.ties.specs.Relations.{Consistent};
ghost use Rattle.ties.specs.Roots.{root_at, tied, there, Merged, Joins};
ghost use Rattle.ties.specs.Moves.{Distinct, Move};
ghost use Rattle.ties.specs.Views.{roots_of};

use super::Ties;
use crate::joins::{Joined, in_order, meet, replace_all};
use order::literal::Literal;

impl Ties {
    // Whether `l` is a constant or its bit is there.
    fn has(&self, l: Literal) -> bool
        ensures { result ≡ there (length (roots_of self.now)) l }
    {
        match l {
            Literal::Bit(n) | Literal::Not(n) => n > 0 && usize::from(n) <= self.roots.len(),
            _ => true,
        }
    }

    // Lets the root `old` give way to the root `new`.
    fn replace(&mut self, old: Literal, new: Literal)
        requires { Move (roots_of self.old) old new }
        ensures { Merged (roots_of self.old) old new (roots_of self.new) }
    {
        replace_all(&mut self.roots, old, new);
    }

    // Merges the classes of two roots: the first literal of the two wins.
    fn merge(&mut self, x: Literal, y: Literal)
        requires { Distinct (roots_of self.old) x y }
        ensures { Merged (roots_of self.old) x y (roots_of self.new) }
    {
        let (new, old) = in_order(x, y);
        self.replace(old, new);
    }

    /// Ties `a` with `b`, and their opposites, unless they are tied already or each to the other's
    /// opposite, or one of them is a bit that is not there.
    pub fn join(&mut self, a: Literal, b: Literal) -> Joined
        ensures joins { Joins result (roots_of self.old) a b (roots_of self.new) }
        ensures absent { (there (length (roots_of self.old)) a && there (length (roots_of self.old)) b) ≡ false → result ≡ Joined.Absent }
        ensures len { length (roots_of self.new) ≡ length (roots_of self.old) }
        ensures consistent { Consistent (tied (root_at (roots_of self.new))) }
    {
        if !self.has(a) || !self.has(b) {
            return Joined::Absent;
        }
        let x = self.root(a);
        let y = self.root(b);
        let joined = meet(x, y);
        if let Joined::Made = joined {
            self.merge(x, y);
        }
        joined
    }
}
