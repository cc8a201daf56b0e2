ghost use Rattle.std.specs.Prelude.{◌≡◌, ◌≤◌, Some};
ghost use Rattle.command_words.specs.inner.NumberSteps.{with_digit};
ghost use Rattle.command_words.specs.Numbers.{number, greatest};

// The greatest number that is accepted: 2^63 - 1.
const GREATEST: u64 = 9223372036854775807;

/// The number that a word writes, if it is one or more decimal digits and at most 2^63 - 1.
pub fn read_number(word: &[u8]) -> Option<u64>
    ensures { result ≡ number word.now }
{
    if word.is_empty() {
        return None;
    }
    let mut value = 0;
    for byte in word {
        value = add_digit(value, *byte)?;
    }
    Some(value)
}

// The number with a digit more.
fn add_digit(value: u64, byte: u8) -> Option<u64>
    requires { value ≤ greatest }
    ensures { result ≡ with_digit value byte }
{
    if byte < b'0' || byte > b'9' {
        return None;
    }
    let digit = u64::from(byte - b'0');
    if value > (GREATEST - digit) / 10 {
        return None;
    }
    Some(value * 10 + digit)
}
