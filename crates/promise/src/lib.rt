//! What reading an answer means, and why clauses, answers and layouts agree. No code but the outcomes and one function that names the theorem.
#![tactic(auto)]

pub mod reading;

ghost use Rattle.std.specs.Prelude.{◌≡◌};
ghost use Rattle.promise.specs.Faithful.{RunsFaithful};

/// Answers 1: whatever calls a new job was given, its clauses, the answers that it reads and its layouts agree.
pub fn runs_faithful() -> u8
    ensures number { result ≡ 1 }
    ensures faithful { RunsFaithful }
{
    1
}
