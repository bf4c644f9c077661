ghost use Rattle.std.specs.Prelude.{◌≡◌, ◌≤◌, ◌&&◌, nat_le, if◌then◌else◌, None, Some, IfSome};
ghost use Rattle.trips_requests.specs.Limits.{is_number, value_from, number_to, number_within};

// The word is one or more decimal digits.
fn is_number_word(word: &[u8]) -> bool
    ensures { result ≡ is_number word.now }
{
    if word.is_empty() {
        return false;
    }
    for byte in word {
        if *byte < 48 || *byte > 57 {
            return false;
        }
    }
    true
}

// The value of decimal digits, where it is at most `most`.
fn value_of(digits: &[u8], most: u64) -> Option<u64>
    ensures value { result ≡ (if nat_le (value_from 0 digits.now) most
        then Some (value_from 0 digits.now) else None) }
    ensures few { IfSome result (λ value. value ≤ most) }
{
    let limit = most as u128;
    let mut value = 0u128;
    for digit in digits {
        value = value * 10 + digit.saturating_sub(48) as u128;
        if value > limit {
            return None;
        }
    }
    Some(value as u64)
}

/// The number that a word of the command line says, where it is at most `most`.
pub fn number_within(word: &[u8], most: u64) -> Option<u64>
    ensures { result ≡ number_within most word.now }
{
    if !is_number_word(word) {
        return None;
    }
    value_of(word, most)
}

/// The number that a word of the command line says, where it is from 1 to `most`.
pub fn number(word: &[u8], most: u32) -> Option<u32>
    ensures value { result ≡ number_to most word.now }
    ensures few { IfSome result (λ value. value ≤ most) }
{
    if !is_number_word(word) {
        return None;
    }
    match value_of(word, most as u64) {
        Some(value) if value > 0 => Some(value as u32),
        _ => None,
    }
}
