//! Decimal numerals, counted and written with no formatter.
ghost use Rattle.std.specs.Prelude.{◌≡◌, length, decimal};
ghost use Rattle.sink.specs.Buffers.{Room, Appended};

/// How many digits `n` has. Four at a time, since most numbers of a clause file have no more.
// Kept as it is: a rule of the project, numerals are counted and written with no formatting machinery.
#[tactic(auto, using(crate::proofs::Numerals::lengths))]
pub(crate) fn decimal_len(n: u32) -> usize
    ensures { result ≡ length (decimal n) }
{
    if n < 10 {
        1
    } else if n < 100 {
        2
    } else if n < 1000 {
        3
    } else if n < 10000 {
        4
    } else {
        4 + decimal_len(n / 10000)
    }
}

/// Writes the digits of `n` into what is reserved.
// Kept as it is: a rule of the project, digits go straight into the reserved buffer.
#[tactic(auto, using(crate::proofs::Numerals::lengths))]
pub(crate) fn push_decimal(out: &mut Vec<u8>, n: u32)
    requires { Room out.old (decimal n) }
    ensures { Appended out.old out.new (decimal n) }
{
    if n >= 10 {
        push_decimal(out, n / 10);
    }
    // Kept as it is: `From` does not narrow, and `try_from` would add an error that cannot come.
    out.push_reserved(b'0' + (n % 10) as u8);
}
