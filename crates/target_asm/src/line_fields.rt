//! The fields of a line, read: each gives what it reads and what comes after it, or nothing where
//! no such field stands.
ghost use Rattle.std.specs.Prelude.{◌≡◌, ◌≤◌, ◌<◌, ◌∷◌, length, IfSome, Some, None};
ghost use Rattle.target_asm_spec.specs.inside.Reading.{ReadsAs, after_in, is_digit, digits_in, with_digit};
ghost use Rattle.target_asm_spec.specs.inside.Reading.{value_from, natural_in, number_in, spaced_in, index_in};
ghost use Rattle.target_asm_spec.specs.Reading.{field_in};
ghost use Rattle.target_asm_spec.specs.inside.Reading.{below_zero, number_by, hex_value};
ghost use Rattle.target_asm_spec.specs.inside.Reading.{byte_in, word_in};

/// What a number of more than nine digits is read as: it is past every field.
const LARGE: u32 = 1_000_000_000;

/// What comes after a word.
#[tactic(auto, using(crate::proofs::Fronts::after_gives))]
pub fn after<'a>(text: &'a [u8], word: &[u8]) -> Option<&'a [u8]>
    ensures { ReadsAs (λ r. r.now) result (after_in word.now text.now) }
{
    text.strip_prefix(word)
}

fn is_digit(b: u8) -> bool
    ensures value { result ≡ is_digit b }
{
    48 <= b && b <= 57
}

/// How many digits the text begins with.
#[tactic(auto, unfolding(target_asm_spec::specs::inside::Reading::digits_in))]
fn digits(text: &[u8]) -> usize
    ensures value { result ≡ digits_in text.now }
    ensures within { result ≤ length text.now }
{
    for (i, b) in text.iter().enumerate() {
        if !is_digit(*b) {
            return i;
        }
    }
    text.len()
}

#[tactic(auto, unfolding(target_asm_spec::specs::inside::Reading::with_digit))]
fn with_digit(value: u32, b: u8) -> u32
    ensures value { result ≡ with_digit value b }
    ensures small { result ≤ 2000000000 }
{
    if value < 100_000_000 {
        value * 10 + b.saturating_sub(48) as u32
    } else {
        LARGE
    }
}

#[tactic(auto, unfolding(target_asm_spec::specs::inside::Reading::value_from))]
fn value_of(digits: &[u8]) -> u32
    ensures value { result ≡ value_from 0 digits.now }
    ensures small { result ≤ 2000000000 }
{
    let mut value = 0;
    for b in digits {
        value = with_digit(value, *b);
    }
    value
}

/// A number without a sign and without leading zeros.
#[tactic(auto, unfolding(target_asm_spec::specs::inside::Reading::natural_in))]
fn natural(text: &[u8]) -> Option<(u32, &[u8])>
    ensures value { ReadsAs (λ r. (r.0, r.1.now)) result (natural_in text.now) }
    ensures small { IfSome result (λ r. r.0 ≤ 2000000000) }
{
    let n = digits(text);
    if n == 0 || (1 < n && text[0] == b'0') {
        return None;
    }
    let (digits, rest) = text.split_at(n);
    Some((value_of(digits), rest))
}

fn below_zero(n: u32, rest: &[u8]) -> Option<(i32, &[u8])>
    requires { n ≤ 2000000000 }
    ensures { ReadsAs (λ r. (r.0, r.1.now)) result (below_zero n rest.now) }
{
    if n == 0 {
        None
    } else {
        Some((-(n as i32), rest))
    }
}

fn after_sign(text: &[u8]) -> Option<(i32, &[u8])>
    ensures { ReadsAs (λ r. (r.0, r.1.now)) result (number_by (Some text.now) text.now) }
{
    match natural(text) {
        None => None,
        Some(n) => below_zero(n.0, n.1),
    }
}

fn without_sign(text: &[u8]) -> Option<(i32, &[u8])>
    ensures { ReadsAs (λ r. (r.0, r.1.now)) result (number_by None text.now) }
{
    match natural(text) {
        None => None,
        Some(n) => Some((n.0 as i32, n.1)),
    }
}

/// A number; one below zero has a sign.
#[tactic(auto, unfolding(target_asm_spec::specs::inside::Reading::number_in))]
pub fn number(text: &[u8]) -> Option<(i32, &[u8])>
    ensures { ReadsAs (λ r. (r.0, r.1.now)) result (number_in text.now) }
{
    match after(text, b"-") {
        Some(rest) => after_sign(rest),
        None => without_sign(text),
    }
}

/// A number after a space.
#[tactic(auto, unfolding(target_asm_spec::specs::inside::Reading::spaced_in))]
pub fn spaced(text: &[u8]) -> Option<(i32, &[u8])>
    ensures { ReadsAs (λ r. (r.0, r.1.now)) result (spaced_in text.now) }
{
    match after(text, b" ") {
        Some(rest) => number(rest),
        None => None,
    }
}

/// A number in brackets after a word, as `G[5]`.
#[tactic(auto, unfolding(target_asm_spec::specs::inside::Reading::index_in))]
pub fn index<'a>(text: &'a [u8], front: &[u8]) -> Option<(i32, &'a [u8])>
    ensures { ReadsAs (λ r. (r.0, r.1.now)) result (index_in front.now text.now) }
{
    let Some(rest) = after(text, front) else {
        return None;
    };
    let Some(n) = number(rest) else {
        return None;
    };
    match after(n.1, b"]") {
        Some(rest) => Some((n.0, rest)),
        None => None,
    }
}

/// A number as the number of a field of so many values.
#[tactic(auto, unfolding(target_asm_spec::specs::Reading::field_in))]
pub fn field(n: i32, values: u8) -> Option<u8>
    ensures value { result ≡ field_in n values }
    ensures within { IfSome result (λ f. f < values) }
{
    if 0 <= n && n < values as i32 {
        Some(n as u8)
    } else {
        None
    }
}

/// What a hexadecimal digit is worth.
#[tactic(auto, unfolding(target_asm_spec::specs::inside::Reading::hex_value))]
fn digit(b: u8) -> Option<u8>
    ensures value { result ≡ hex_value b }
    ensures small { IfSome result (λ d. d < 16) }
{
    if 48 <= b && b <= 57 {
        Some(b - 48)
    } else if 97 <= b && b <= 102 {
        Some(b - 87)
    } else {
        None
    }
}

/// The byte of two digits.
#[tactic(auto, unfolding(target_asm_spec::specs::inside::Reading::byte_in))]
pub fn byte(text: &[u8]) -> Option<(u8, &[u8])>
    ensures { ReadsAs (λ r. (r.0, r.1.now)) result (byte_in text.now) }
{
    match text {
        [high, low, rest @ ..] => both_digits(*high, *low, rest),
        _ => None,
    }
}

#[tactic(auto, unfolding(target_asm_spec::specs::inside::Reading::byte_in))]
fn both_digits(high: u8, low: u8, rest: &[u8]) -> Option<(u8, &[u8])>
    ensures { ReadsAs (λ r. (r.0, r.1.now)) result (byte_in (high ∷ low ∷ rest.now)) }
{
    match digit(high) {
        None => None,
        Some(high) => match digit(low) {
            None => None,
            Some(low) => Some((16 * high + low, rest)),
        },
    }
}

/// The word of eight digits.
#[tactic(auto, unfolding(target_asm_spec::specs::inside::Reading::word_in))]
pub fn word(text: &[u8]) -> Option<(u32, &[u8])>
    ensures { ReadsAs (λ r. (r.0, r.1.now)) result (word_in text.now) }
{
    let Some(a) = byte(text) else {
        return None;
    };
    let Some(b) = byte(a.1) else {
        return None;
    };
    let Some(c) = byte(b.1) else {
        return None;
    };
    match byte(c.1) {
        None => None,
        Some(d) => Some((
            16777216 * a.0 as u32 + 65536 * b.0 as u32 + 256 * c.0 as u32 + d.0 as u32,
            d.1,
        )),
    }
}
