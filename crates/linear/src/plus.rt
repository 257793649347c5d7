//! The kind of row that adds two variables.
ghost use Rattle.std.specs.Prelude.{◌≡◌, ◌+◌, ◌≤◌, refl};
ghost use Rattle.order.specs.Ranges.{low, high};
ghost use Rattle.order.specs.Visits.{After};
ghost use Rattle.kinds.specs.Families.{is_settled, all_stand};
ghost use Rattle.linear.specs.Plus.{plus, corner, stepped, linked, links, links_stand};
ghost use Rattle.linear.specs.PlusLaws.{plus_lawful};

use kinds::item::{Item, Tie};
use kinds::kind::Kind;
use kinds::listen::{Listener, Standing};
use kinds::reading;
use order::bound::Bound;
use order::range::Range;
use order::visit::Visitor;

// Shows the visitor what A reaching i and B reaching j say of C, and what A at most i and B at most j say of it.
fn visit_corner<V: Visitor>(a: u16, b: u16, c: u16, i: u8, j: u8, visitor: &mut V)
    ensures { After V.Visitor.step visitor.old (corner a b c i j) visitor.new }
{
    let [i, j] = [i, j].map(u16::from);
    visitor.visit(&[
        Bound::below(a, i),
        Bound::below(b, j),
        Bound::at_least(c, i + j),
    ]);
    visitor.visit(&[
        Bound::at_least(a, i + 1),
        Bound::at_least(b, j + 1),
        Bound::below(c, i + j + 1),
    ]);
}

// How the value k of one variable ties two others, P and Q.
// Kept as it is: a closure is no plainer: it would be written twice for each link, to tell it and to test it.
#[derive(Clone, Copy)]
enum Link {
    // P + Q is k.
    Sum(u16, u16),
    // Q - P is k.
    Difference(u16, u16),
}

impl Link {
    // The variable P, at whose thresholds there are ties.
    fn stepped(self) -> u16
        ensures { result ≡ stepped self }
    {
        let (Link::Sum(p, _) | Link::Difference(p, _)) = self;
        p
    }

    // The tie of P and Q at the threshold i of P. A threshold of Q below 0 is written as 0.
    fn tie(self, k: u8, i: u16) -> Tie
        requires { i ≤ 256 }
        ensures { result ≡ linked self k i }
    {
        let k = u16::from(k);
        let right = match self {
            Link::Sum(_, q) => Bound::below(q, (k + 1).saturating_sub(i)),
            Link::Difference(_, q) => Bound::at_least(q, k + i),
        };
        Tie::between(Bound::at_least(self.stepped(), i), right)
    }

    // Tells the ties of P and Q that each value of S gives.
    #[tactic(auto, using(kinds::proofs::Loops::next))]
    fn tell<L: Listener>(self, ranges: &[Range], s: u16, listener: &mut L)
        ensures { After L.Listener.hears listener.old (links ranges.now s self) listener.new }
    {
        let of_s = reading::range_of(ranges, s);
        let of_p = reading::range_of(ranges, self.stepped());
        for k in of_s.low()..=of_s.high() {
            let premise = Tie::settled(ranges, s, u16::from(k));
            for i in u16::from(of_p.low())..u16::from(of_p.high()) + 2 {
                listener.hear(&premise, self.tie(k, i));
            }
        }
    }

    // Whether all ties of P and Q stand that the value k gives.
    fn all_stand<T: Standing>(self, ranges: &[Range], k: u8, ties: &T) -> bool
        ensures { result ≡ all_stand (T.Standing.stands ties.now) (linked self k) (low ranges.now (stepped self)) (high ranges.now (stepped self) + 2) }
    {
        let of_p = reading::range_of(ranges, self.stepped());
        (u16::from(of_p.low())..u16::from(of_p.high()) + 2).all(
            |i|
                requires { i ≤ 256 }
            { ties.tied(self.tie(k, i)) },
        )
    }

    // Whether S is settled at one of its values, and all ties of P and Q stand that this gives.
    fn stands<T: Standing>(self, ranges: &[Range], s: u16, ties: &T) -> bool
        ensures { result ≡ links_stand (T.Standing.stands ties.now) ranges.now s self }
    {
        let of_s = reading::range_of(ranges, s);
        (of_s.low()..=of_s.high()).any(|k| is_settled(ranges, s, k, ties)
            && self.all_stand(ranges, k, ties))
    }
}

// Whether S is settled at k.
fn is_settled<T: Standing>(ranges: &[Range], s: u16, k: u8, ties: &T) -> bool
    ensures { result ≡ is_settled (T.Standing.stands ties.now) ranges.now s k }
{
    let [reached, stopped] = Tie::settled(ranges, s, u16::from(k));
    ties.tied(reached) && ties.tied(stopped)
}

/// A + B is C.
pub struct Plus;

impl Kind for Plus {
    const CODE: u8 = 1;

    const LONGEST: usize = 3;

    ghost CODE = { 1 };

    ghost LONGEST = { 3 };

    ghost meaning = { plus };

    ghost longest_is = { refl };

    ghost lawful = { plus_lawful };

    fn formed(items: &[Item]) -> bool {
        reading::only_variables(items, 3)
    }

    fn fits(_items: &[Item], _ranges: &[Range]) -> bool {
        true
    }

    fn met(items: &[Item], values: &[u8]) -> bool {
        let [a, b, c] = reading::variables::<3>(items).map(|x| reading::value_of(values, x));
        u16::from(a) + u16::from(b) == u16::from(c)
    }

    #[tactic(auto, using(kinds::proofs::Loops::next))]
    fn visit_clauses<V: Visitor>(items: &[Item], ranges: &[Range], visitor: &mut V) {
        let [a, b, c] = reading::variables::<3>(items);
        let of_a = reading::range_of(ranges, a);
        let of_b = reading::range_of(ranges, b);
        for i in of_a.low()..=of_a.high() {
            for j in of_b.low()..=of_b.high() {
                visit_corner(a, b, c, i, j, visitor);
            }
        }
    }

    #[tactic(auto, using(order::proofs::Visiting::after_join))]
    fn tell_pairings<L: Listener>(items: &[Item], ranges: &[Range], listener: &mut L) {
        let [a, b, c] = reading::variables::<3>(items);
        Link::Sum(a, b).tell(ranges, c, listener);
        Link::Difference(b, c).tell(ranges, a, listener);
        Link::Difference(a, c).tell(ranges, b, listener);
    }

    fn spent<T: Standing>(items: &[Item], ranges: &[Range], ties: &T) -> bool {
        let [a, b, c] = reading::variables::<3>(items);
        Link::Sum(a, b).stands(ranges, c, ties)
            || Link::Difference(b, c).stands(ranges, a, ties)
            || Link::Difference(a, c).stands(ranges, b, ties)
    }
}
