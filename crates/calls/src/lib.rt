//! What the calls on a job mean: specs, and proofs of what each call keeps. No code but the refusals and one function that names the theorem.
#![tactic(auto)]

pub mod call;
pub mod refusal;

ghost use Rattle.std.specs.Prelude.{◌≡◌};
ghost use Rattle.calls.specs.Runs.{CallsKeep};

/// Answers 1: whatever calls a new job was given, it keeps the invariant on which settling and writing rest.
pub fn calls_keep() -> u8
    ensures number { result ≡ 1 }
    ensures keeps { CallsKeep }
{
    1
}
