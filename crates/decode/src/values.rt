//! The values of declared variables.
ghost use Rattle.std.specs.Prelude.{◌≡◌, ◌≤◌, ◌++◌, length, drop};
ghost use Rattle.kinds.specs.Meaning.{valued};
ghost use Rattle.promise.specs.Readings.{count_declared, picked};

/// How many variables are declared.
pub fn count_declared(declared: &[bool]) -> usize
    ensures { result ≡ count_declared declared.now }
{
    declared.iter().map(|d| usize::from(*d)).sum()
}

/// Puts the values of the declared variables, in order, at the start of the buffer, as far as it goes.
pub fn put_declared(declared: &[bool], values: &[u8], buffer: &mut [u8])
    ensures { count_declared declared.now ≤ length buffer.old → buffer.new ≡ picked declared.now 0 (valued values.now) ++ drop (length (picked declared.now 0 (valued values.now))) buffer.old }
{
    let mut at = 0;
    for (x, is_declared) in declared.iter().enumerate() {
        if *is_declared && at < buffer.len() {
            buffer[at] = values.get(x).copied().unwrap_or(0);
            at += 1;
        }
    }
}
