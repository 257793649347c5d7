//! The assignment that literals say.
ghost use Rattle.std.specs.Prelude.{◌≡◌, IfOk};
ghost use Rattle.answers.specs.declared.assignment.AssignmentFault.TheVariants.{NoMemory};
ghost use Rattle.answers.specs.Assignments.{zero_ends, Assigns};
ghost use Rattle.answers.specs.Marks.{given, Marked};

use sink::lit::Lit;
use std::alloc::{AllocError, AllocFailed, Global};

/// Whether 0 stands last and only there.
pub fn ends_with_zero(lits: &[Lit]) -> bool
    ensures { result ≡ zero_ends lits.now }
{
    let Some((last, others)) = lits.split_last() else {
        return false;
    };
    last.variable == 0 && others.iter().all(|lit| lit.variable != 0)
}

/// Why there is no assignment: a number is not given once, or there is no memory.
// Kept as it is: one error type for all that lack memory is no plainer: each module names its own no beside `NoMemory`.
#[derive(Clone, Copy, Debug, PartialEq, Eq)]
pub enum AssignmentFault {
    NotOnce,
    NoMemory,
}

impl From<AllocError> for AssignmentFault {
    ghost from_gives = { λ _ e. e ≡ NoMemory };

    fn from(_: AllocError) -> AssignmentFault {
        AssignmentFault::NoMemory
    }
}

impl<T: Drop> From<AllocFailed<T>> for AssignmentFault {
    ghost from_gives = { λ _ e. e ≡ NoMemory };

    fn from(_: AllocFailed<T>) -> AssignmentFault {
        AssignmentFault::NoMemory
    }
}

// What is known of a number.
#[derive(Clone, Copy)]
enum Mark {
    Absent,
    Set(bool),
    Twice,
}

impl Mark {
    // A number is given with a truth.
    fn given(self, truth: bool) -> Mark
        ensures { result ≡ given self truth }
    {
        match self {
            Mark::Absent => Mark::Set(truth),
            Mark::Set(_) | Mark::Twice => Mark::Twice,
        }
    }
}

// The marks of the numbers below `count`, each at its place, as the literals give them.
fn marks(heap: Global, lits: &[Lit], count: usize) -> Result<Vec<Mark>, AllocError>
    ensures { IfOk result (λ marks. Marked lits.now count marks.items) }
{
    let mut marks = vec![in heap; Mark::Absent; count]?;
    for lit in lits {
        if let Some(mark) = marks.get_mut(usize::from(lit.variable)) {
            *mark = mark.given(!lit.negated);
        }
    }
    Ok(marks)
}

/// The truth of each number from 1 to V, at its place; the place 0 is false. Each of 1 to V given once?
pub fn assignment(heap: Global, lits: &[Lit], variables: u16) -> Result<Vec<bool>, AssignmentFault>
    ensures { Assigns lits.now variables result }
{
    let marks = marks(heap, lits, usize::from(variables) + 1)?;
    let mut truths = Vec::new(heap);
    truths.push(false)?;
    for mark in &marks[1..] {
        let Mark::Set(truth) = mark else {
            return Err(AssignmentFault::NotOnce);
        };
        truths.push(*truth)?;
    }
    Ok(truths)
}
