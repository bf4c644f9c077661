//! What a token is in a parameter.

/// What a token is in a parameter: a keyword of declarations; the `*` of a pointer, a token between that and its
/// name, its name; or nothing of that.
#[derive(Clone, Copy, Debug, PartialEq, Eq)]
pub enum Part {
    Apart,
    Word,
    Star,
    Within,
    Name,
}
