//! A conversion specification (C17 7.21.6.1, paragraph 4), byte by byte.

ghost use Rattle.std.specs.Prelude.{◌≡◌};
ghost use Rattle.c_lex.specs.Bytes.{is_digit};
ghost use Rattle.c_library.specs.Conversions as conversions;

/// A length modifier: none, `h`, `hh`, `l`, or `ll` and what stands for it.
#[derive(Clone, Copy, Debug, PartialEq, Eq, Drop)]
pub enum Size {
    Plain,
    Short,
    Char,
    Long,
    Longer,
}

/// A conversion specification: its flags, width, precision, length modifier and letter. A width of 0 is none.
#[derive(Clone, Copy, Debug, PartialEq, Eq, Drop)]
pub struct Conversion {
    /// `-`: to the left of its field
    pub left: bool,
    /// `+`: with a sign always
    pub plus: bool,
    /// a space where no sign is
    pub space: bool,
    /// `#`: in another form
    pub form: bool,
    /// `0`: filled by zeros
    pub zero: bool,
    pub width: u32,
    pub precision: Option<u32>,
    pub size: Size,
    pub letter: u8,
}

/// A conversion of which nothing is said yet.
pub fn nothing_said() -> Conversion
    ensures { result ≡ conversions.nothing_said }
{
    Conversion {
        left: false,
        plus: false,
        space: false,
        form: false,
        zero: false,
        width: 0,
        precision: None,
        size: Size::Plain,
        letter: 0,
    }
}

/// With the flag that the byte is, if it is one.
pub fn with_flag(b: u8, c: Conversion) -> Option<Conversion>
    ensures { result ≡ conversions.with_flag b c }
{
    if b == b'-' {
        Some(Conversion { left: true, ..c })
    } else if b == b'+' {
        Some(Conversion { plus: true, ..c })
    } else if b == b' ' {
        Some(Conversion { space: true, ..c })
    } else if b == b'#' {
        Some(Conversion { form: true, ..c })
    } else if b == b'0' {
        Some(Conversion { zero: true, ..c })
    } else {
        None
    }
}

/// Is it a decimal digit?
fn is_digit(b: u8) -> bool
    ensures { result ≡ is_digit b }
{
    b'0' <= b && b <= b'9'
}

/// The number with a digit more, if the byte is one and the number stays an int.
fn with_digit(b: u8, number: u32) -> Option<u32>
    ensures { result ≡ conversions.with_digit b number }
{
    if !is_digit(b) {
        return None;
    }
    let next = 10 * u64::from(number) + u64::from(b - b'0');
    if next < 2_147_483_648 {
        Some(next as u32)
    } else {
        None
    }
}

/// With a digit of the width.
pub fn with_width(b: u8, c: Conversion) -> Option<Conversion>
    ensures { result ≡ conversions.with_width b c }
{
    match with_digit(b, c.width) {
        Some(width) => Some(Conversion { width, ..c }),
        None => None,
    }
}

/// With the point that begins a precision, which is 0 at first.
pub fn with_point(b: u8, c: Conversion) -> Option<Conversion>
    ensures { result ≡ conversions.with_point b c }
{
    if b == b'.' {
        Some(Conversion {
            precision: Some(0),
            ..c
        })
    } else {
        None
    }
}

/// The number that is there, or this one.
pub fn given(other: u32, number: Option<u32>) -> u32
    ensures { result ≡ conversions.given other number }
{
    match number {
        Some(number) => number,
        None => other,
    }
}

/// With a digit of the precision.
pub fn with_precision(b: u8, c: Conversion) -> Option<Conversion>
    ensures { result ≡ conversions.with_precision b c }
{
    match with_digit(b, given(0, c.precision)) {
        Some(number) => Some(Conversion {
            precision: Some(number),
            ..c
        }),
        None => None,
    }
}

/// Does the byte stand for `ll`?
fn is_longer(b: u8) -> bool
    ensures { result ≡ conversions.one_of conversions.longer b }
{
    b == b'j' || b == b'z' || b == b't'
}

/// The length modifier behind this one, where the byte goes on with it.
fn sized(b: u8, size: Size) -> Option<Size>
    ensures { result ≡ conversions.sized b size }
{
    match size {
        Size::Plain => {
            if b == b'h' {
                Some(Size::Short)
            } else if b == b'l' {
                Some(Size::Long)
            } else if is_longer(b) {
                Some(Size::Longer)
            } else {
                None
            }
        }
        Size::Short => { if b == b'h' { Some(Size::Char) } else { None } }
        Size::Long => { if b == b'l' { Some(Size::Longer) } else { None } }
        Size::Char | Size::Longer => None,
    }
}

/// With a letter of the length modifier.
pub fn with_size(b: u8, c: Conversion) -> Option<Conversion>
    ensures { result ≡ conversions.with_size b c }
{
    match sized(b, c.size) {
        Some(size) => Some(Conversion { size, ..c }),
        None => None,
    }
}

/// The letters of signed numbers.
pub fn is_signed(b: u8) -> bool
    ensures { result ≡ conversions.is_signed b }
{
    b == b'd' || b == b'i'
}

/// The letters of unsigned numbers in a base that `#` shows.
pub fn is_based(b: u8) -> bool
    ensures { result ≡ conversions.is_based b }
{
    b == b'o' || b == b'x' || b == b'X'
}

/// Has it no length modifier?
fn is_plain(size: Size) -> bool
    ensures { result ≡ conversions.is_plain size }
{
    match size {
        Size::Plain => true,
        _ => false,
    }
}

/// May text be written so? It has no length, `#` or `0`.
fn is_text(c: Conversion) -> bool
    ensures { result ≡ conversions.is_text c }
{
    is_plain(c.size) && !c.form && !c.zero
}

/// Is it one that C17 defines and the profile has?
pub fn is_defined(c: Conversion) -> bool
    ensures { result ≡ conversions.is_defined c }
{
    if is_based(c.letter) {
        true
    } else if is_signed(c.letter) || c.letter == b'u' {
        !c.form
    } else if c.letter == b's' {
        is_text(c)
    } else if c.letter == b'c' {
        is_text(c) && !c.precision.is_some()
    } else {
        false
    }
}
