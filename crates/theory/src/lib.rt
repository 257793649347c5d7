//! Why the clauses, the answers and the layouts of a job agree: specs and proofs, with no code but one function that names the theorems.
#![tactic(auto)]

ghost use Rattle.std.specs.Prelude.{◌≡◌};
ghost use Rattle.theory.specs.Larger.{LargerKeeps};
ghost use Rattle.theory.specs.Promise.{Promises, LaysOut};
ghost use Rattle.theory.specs.Rounds.{Rounds};
ghost use Rattle.theory.specs.Rows.{KindsLawful};
ghost use Rattle.theory.specs.Steps.{Settles};

/// Answers 1: rows of lawful kinds are lawful, the promise stands for each job of such rows, with hidden variables
/// too, settling goes by steps that keep the ties sound, and what is closed for a larger job is closed for a smaller.
pub fn promise_stands() -> u8
    ensures number { result ≡ 1 }
    ensures kinds { KindsLawful }
    ensures promise { Promises }
    ensures layouts { LaysOut }
    ensures settling { Settles }
    ensures rounds { Rounds }
    ensures growth { LargerKeeps }
{
    1
}
