//! What a literal comes to in a clause of which some literals are kept.
ghost use Rattle.cnf.specs.Roles.{Plays};

use crate::literals::has;
use order::literal::Literal;

/// With the literal the clause is true (it settles the clause), or says the same as without it; else it is new.
#[derive(Clone, Copy, PartialEq, Eq, Debug)]
pub enum Role {
    Settles,
    Idle,
    New,
}

/// The role of a literal that comes after those that are kept.
pub(crate) fn role_of(kept: &[Literal], l: Literal) -> Role
    ensures { Plays kept.now l result }
{
    match l {
        Literal::True => Role::Settles,
        Literal::False => Role::Idle,
        l if has(kept, l) => Role::Idle,
        l if has(kept, l.opposite()) => Role::Settles,
        _ => Role::New,
    }
}
