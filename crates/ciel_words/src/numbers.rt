//! Numbers as values of options.

ghost use Rattle.std.specs.Prelude.{◌≡◌, ◌≤◌, IfSome};
ghost use Rattle.std.specs.Char.{is_ascii_digit};
ghost use Rattle.std.specs.List.{list_all};
ghost use Rattle.ciel_words.specs.Raw.{text_of};
ghost use Rattle.ciel_words.specs.Values.{is_number, number_within, or_absent};

/// The greatest number of digits.
const MOST_DIGITS: usize = 20;

fn all_digits(bytes: &[u8]) -> bool
    ensures { result ≡ list_all is_ascii_digit bytes.now }
{
    bytes.iter().all(|byte| byte.is_ascii_digit())
}

// Whether a text is a number: 1 to 20 decimal digits.
fn is_number(text: &str) -> bool
    ensures { result ≡ is_number text.now }
{
    !text.is_empty() && text.len() <= MOST_DIGITS && all_digits(text.as_bytes())
}

/// The number that a text writes, where it is one between these two.
pub(crate) fn number_within(low: u64, high: u64, text: &str) -> Option<u64>
    ensures value { result ≡ number_within low high text.now }
    ensures bound { IfSome result (λ n. n ≤ high) }
{
    if !is_number(text) {
        return None;
    }
    let Ok(number) = text.parse::<u64>() else {
        return None;
    };
    if low <= number && number <= high {
        Some(number)
    } else {
        None
    }
}

/// The number that the value of an option writes, where it is one between these two; another one where the option is absent.
pub(crate) fn number_or(absent: u64, low: u64, high: u64, value: Option<&str>) -> Option<u64>
    ensures value { result ≡ or_absent absent (number_within low high) (text_of value.entry) }
    ensures bound { IfSome result (λ n. absent ≤ high → n ≤ high) }
{
    match value {
        Some(text) => number_within(low, high, text),
        None => Some(absent),
    }
}
