//! Numbers in a script.

ghost use Rattle.std.specs.Prelude.{◌≡◌, ◌≤◌, ◌^◌, true, false, MatchOption};
ghost use Rattle.std.specs.Char.{is_ascii_digit};
ghost use Rattle.std.specs.List.{list_all};
ghost use Rattle.script.specs.Numbers.{is_number, is_numeral, value};

/// Whether a text is one or more digits without a leading zero.
fn is_numeral(text: &[u8]) -> bool
    ensures { result ≡ is_numeral text.now }
{
    if text.is_empty() {
        return false;
    }
    if text.len() > 1 && text[0] == b'0' {
        return false;
    }
    all_digits(text)
}

/// Whether each byte is a digit.
fn all_digits(text: &[u8]) -> bool
    ensures { result ≡ list_all is_ascii_digit text.now }
{
    text.iter().all(|digit| digit.is_ascii_digit())
}

/// The value of digits, or `None` if it needs more than 64 bits.
fn digits_value(text: &[u8]) -> Option<u64>
    requires { list_all is_ascii_digit text.now ≡ true }
    ensures { MatchOption result (2 ^ 64 ≤ value text.now) (λ n. n ≡ value text.now) }
{
    let mut sum: u64 = 0;
    for digit in text {
        sum = sum.checked_mul(10)?.checked_add(u64::from(*digit - b'0'))?;
    }
    Some(sum)
}

/// The number that a text represents, or `None` if it represents none.
#[tactic(auto, unfolding(crate::specs::Numbers::is_number))]
pub(crate) fn number(text: &[u8]) -> Option<u64>
    ensures { MatchOption result (is_number text.now ≡ false)
        (λ n. (is_number text.now ≡ true) × (n ≡ value text.now)) }
{
    if is_numeral(text) {
        digits_value(text)
    } else {
        None
    }
}
