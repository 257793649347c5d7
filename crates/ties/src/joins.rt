//! Joining two classes of tied literals.
ghost use Rattle.std.specs.Prelude.{◌≡◌, ◌≤◌, ◌⊎◌, map};
ghost use Rattle.ties.specs.Roots.{rank};
ghost use Rattle.ties.specs.Moves.{replaced, Meets};

use order::literal::Literal;

/// What joining two literals came to: only at `Made` is there a tie that was not there before.
#[derive(Clone, Copy, PartialEq, Eq, Debug)]
pub enum Joined {
    /// They were tied already.
    Same,
    /// They are tied now.
    Made,
    /// Each is tied to the other's opposite.
    Contradiction,
    /// One of them is a bit that is not there.
    Absent,
}

// The place of `l` in the order of the literals.
// Kept as it is: an `Ord` is no plainer; a derived one puts all bits before all opposites, and one by hand needs its laws.
fn rank(l: Literal) -> u32
    ensures { result ≡ rank l }
{
    match l {
        Literal::False => 0,
        Literal::True => 1,
        Literal::Bit(n) => 2 * u32::from(n),
        Literal::Not(n) => 2 * u32::from(n) + 1,
    }
}

/// The two literals, the one of lower rank first.
pub(crate) fn in_order(x: Literal, y: Literal) -> (Literal, Literal)
    ensures ranks { rank result.0 ≤ rank result.1 }
    ensures both { ((result.0 ≡ x) × (result.1 ≡ y)) ⊎ ((result.0 ≡ y) × (result.1 ≡ x)) }
{
    if rank(x) < rank(y) { (x, y) } else { (y, x) }
}

/// What joining two roots comes to.
pub(crate) fn meet(x: Literal, y: Literal) -> Joined
    ensures { Meets result x y }
{
    if x == y {
        return Joined::Same;
    }
    if x == y.opposite() {
        return Joined::Contradiction;
    }
    Joined::Made
}

/// Puts `new` in place of `old`, and the opposite of `new` in place of the opposite of `old`.
pub(crate) fn replace_all(roots: &mut [Literal], old: Literal, new: Literal)
    ensures { roots.new ≡ map (replaced old new) roots.old }
{
    let old_opposite = old.opposite();
    let new_opposite = new.opposite();
    for root in roots {
        if *root == old {
            *root = new;
        } else if *root == old_opposite {
            *root = new_opposite;
        }
    }
}
