//! A clause through the roots: false and repeats struck out, true clauses left out.
ghost use Rattle.std.specs.Prelude.{◌≡◌, ◌≤◌, length, IfSome, option_copied, option_to_list};
ghost use Rattle.order.specs.Variables.{ranges_of};
ghost use Rattle.cnf.specs.Reduced.{written};
ghost use Rattle.cnf.specs.Numbered.{rooted};

use crate::role::{Role, role_of};
use crate::room::Room;
use crate::roots::Roots;
use order::bound::Bound;
use order::literal::Literal;
use order::variables::Variables;

/// What is written of a clause, put into the room; none where it is not written.
pub(crate) fn reduce<'a, R: Roots>(
    variables: &Variables,
    roots: &R,
    clause: &[Bound],
    room: &'a mut Room<Literal>,
) -> Option<&'a [Literal]>
    requires { length clause.now ≤ 64 }
    ensures value { written (rooted (ranges_of variables.now) (R.root roots.now) clause.now) ≡ option_to_list (option_copied result) }
    ensures short { IfSome result (λ literals. length literals.now ≤ 64) }
{
    room.literals.clear();
    for bound in clause {
        let l = roots.root_of(variables.literal(*bound));
        match role_of(&room.literals, l) {
            Role::Settles => return None,
            Role::Idle => {}
            Role::New => room.literals.push_reserved(l),
        }
    }
    Some(room.literals.as_slice())
}
