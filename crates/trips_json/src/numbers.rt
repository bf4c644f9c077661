//! Numbers in decimal digits.

ghost use Rattle.std.specs.Prelude.{◌≡◌, ◌≤◌, nat_le, if◌then◌else◌, None, Some};
ghost use Rattle.trips_requests.specs.Limits.{is_number, value_from, number_within, most_seed};
ghost use Rattle.trips_json.specs.Lines.{is_decimal};

// The greatest number that is read.
const MOST: u64 = 18_446_744_073_709_551_615;

// The word is one or more decimal digits.
fn is_number(word: &[u8]) -> bool
    ensures { result ≡ is_number word.now }
{
    if word.is_empty() {
        return false;
    }
    for byte in word {
        if *byte < 48 || *byte > 57 {
            return false;
        }
    }
    true
}

// The value of decimal digits, where it is at most `most`.
fn value_of(digits: &[u8], most: u64) -> Option<u64>
    ensures { result ≡ (if nat_le (value_from 0 digits.now) most
        then Some (value_from 0 digits.now) else None) }
{
    let limit = most as u128;
    let mut value = 0u128;
    for digit in digits {
        value = value * 10 + digit.saturating_sub(48) as u128;
        if value > limit {
            return None;
        }
    }
    Some(value as u64)
}

/// The number that decimal digits say, where it is at most 2^64 - 1.
pub fn number_in(word: &[u8]) -> Option<u64>
    ensures { result ≡ number_within most_seed word.now }
{
    if !is_number(word) {
        return None;
    }
    value_of(word, MOST)
}

/// These are decimal digits of a number, at most 20 of them, without a zero in front.
pub fn is_decimal(digits: &[u8]) -> bool
    ensures { result ≡ is_decimal digits.now }
{
    is_number(digits) && digits.len() <= 20 && (digits.len() == 1 || digits[0] != b'0')
}
