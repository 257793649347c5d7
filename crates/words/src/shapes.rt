//! The shapes of a word: a name, a number.
ghost use Rattle.std.specs.Prelude.{◌≡◌, ◌+◌, ◌*◌, ◌≤◌, Bool, true, false, if◌then◌else◌, Some, None, ◌^◌, ◌&&◌, nat_lt};
ghost use Rattle.words.specs.Shapes.{in_name, is_decimal, is_name, is_number, number};

/// Whether a word is a name: 1 to 16 letters, digits or underscores, first a letter.
pub fn is_name(word: &[u8]) -> bool
    ensures { result ≡ is_name word.now }
{
    let [first, ..] = word else {
        return false;
    };
    first.is_ascii_alphabetic() && word.len() <= 16 && word.iter().all(|b| in_name(*b))
}

/// Whether a byte may stand in a name.
fn in_name(b: u8) -> bool
    ensures { result ≡ in_name b }
{
    b.is_ascii_alphanumeric() || b == b'_'
}

// The value that one more digit gives, where it fits; few values are so large that it may not.
fn with_digit(value: u32, digit: u32) -> Option<u32>
    requires { digit ≤ 9 }
    ensures { result ≡ (if nat_lt (value * 10 + digit) (2 ^ 32) then Some (value * 10 + digit) else None) }
{
    if value < 429496729 {
        return Some(value * 10 + digit);
    }
    value.checked_mul(10)?.checked_add(digit)
}

/// The value of a word of digits alone, where it fits; none for any other word.
pub fn decimal(word: &[u8]) -> Option<u32>
    ensures { result ≡ (if is_decimal word.now && nat_lt (number word.now) (2 ^ 32) then Some (number word.now) else None) }
{
    if word.is_empty() {
        return None;
    }
    let mut value: u32 = 0;
    for b in word {
        if !b.is_ascii_digit() {
            return None;
        }
        value = with_digit(value, u32::from(*b - b'0'))?;
    }
    Some(value)
}

/// The value of a word of 1 to 3 digits; none for any other word.
pub fn number(word: &[u8]) -> Option<u16>
    ensures { result ≡ (if is_number word.now then Some (number word.now) else None) }
{
    if word.len() > 3 {
        return None;
    }
    u16::try_from(decimal(word)?).ok()
}
