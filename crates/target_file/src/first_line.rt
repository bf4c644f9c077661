//! The first line of a text.
ghost use Rattle.std.specs.Prelude.{◌≡◌, ◌≤◌, length};
ghost use Rattle.target_file.specs.Bare.{is_blank};
ghost use Rattle.target_file.specs.inside.Scanning.{line_size, told_from, IsFirstLine};

/// The first line of a text.
#[derive(Clone, Copy)]
pub struct FirstLine<'a> {
    /// What it tells.
    pub tells: &'a [u8],
    /// Whether a line feed ends it.
    pub ended: bool,
    /// What comes after it and its line feed.
    pub rest: &'a [u8],
}

fn is_blank(b: u8) -> bool
    ensures value { result ≡ is_blank b }
{
    b == 32 || b == 9 || b == 13
}

/// How many bytes stand before the first line feed.
#[tactic(auto, unfolding(crate::specs::inside::Scanning::line_size))]
fn line_size(text: &[u8]) -> usize
    ensures value { result ≡ line_size text.now }
    ensures within { result ≤ length text.now }
{
    for (i, b) in text.iter().enumerate() {
        if *b == b'\n' {
            return i;
        }
    }
    text.len()
}

/// How many bytes of a line tell something.
#[tactic(auto, unfolding(crate::specs::inside::Scanning::told_from))]
fn told_size(line: &[u8]) -> usize
    ensures value { result ≡ told_from 0 0 line.now }
    ensures within { result ≤ length line.now }
{
    let mut size = 0;
    for (i, b) in line.iter().enumerate() {
        if *b == b'#' {
            return size;
        }
        if !is_blank(*b) {
            size = i + 1;
        }
    }
    size
}

/// The first line of a text.
pub fn first_line(text: &[u8]) -> FirstLine<'_>
    ensures { IsFirstLine text.now result.tells.now result.ended result.rest.now }
{
    let (line, more) = text.split_at(line_size(text));
    let (tells, _) = line.split_at(told_size(line));
    match more {
        [_, rest @ ..] => FirstLine {
            tells,
            ended: true,
            rest,
        },
        [] => FirstLine {
            tells,
            ended: false,
            rest: more,
        },
    }
}
