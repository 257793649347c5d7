//! The order clauses of the variables.
ghost use Rattle.std.specs.Prelude.{◌≡◌, ◌+◌, ◌<◌, [], ◌∷◌, length};
ghost use Rattle.order.specs.Bounds.{reaches, misses};
ghost use Rattle.order.specs.Orders.{order, orders};
ghost use Rattle.order.specs.Variables.{ranges_of};
ghost use Rattle.order.specs.Visits.{After};

use super::Variables;
use crate::bound::Bound;
use crate::visit::Visitor;

impl Variables {
    /// Shows the visitor the order clauses of one variable; none where it is not there.
    pub fn visit_order<V: Visitor>(&self, x: usize, visitor: &mut V)
        ensures { After V.Visitor.step visitor.old (order (ranges_of self.now) x) visitor.new }
    {
        let Some(range) = self.ranges.get(x) else {
            return;
        };
        let variable = x as u16;
        for t in u16::from(range.low()) + 1..u16::from(range.high()) {
            visitor.visit(&Bound::at_least(variable, t + 1).implies(Bound::at_least(variable, t)));
        }
    }

    /// Shows the visitor the order clauses of all variables, t rising: where X reaches t + 1 it reaches t.
    pub fn visit_orders<V: Visitor>(&self, visitor: &mut V)
        ensures { After V.Visitor.step visitor.old (orders (ranges_of self.now)) visitor.new }
    {
        // Kept as it is: variables go by number, and with `enumerate` the entries would not be used: no plainer.
        for x in 0..self.ranges.len() {
            self.visit_order(x, visitor);
        }
    }
}
