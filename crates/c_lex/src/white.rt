//! White space: spaces and splices (C17 5.1.1.2, 6.4), and the line before and behind them.

ghost use Rattle.std.specs.Prelude.{◌≡◌, ◌≤◌, ◌<◌, ◌+◌, ◌^◌, ◌∷◌, ◌&&◌, ◌||◌, Bool, true, false, length};
ghost use Rattle.c_lex.specs.Bytes as bytes;
ghost use Rattle.c_lex.specs.inside.Spaces.{spaces, after_spaces};
ghost use Rattle.c_tree.specs.Limits.{most_tokens};
ghost use Rattle.c_lex.specs.Ascii as ascii;
ghost use Rattle.c_lex.specs.inside.Places.{place, HasRoom};
ghost use Rattle.c_lex.specs.inside.Turns.{Turned, Moved};

use crate::fault::LexFault;
use crate::lexer::Lexer;
use crate::scan::{is_blank, is_space};
use c_tree::{Form, Lexeme, Word};

/// Is the line empty after this byte of white space, where this one stands before it?
fn next_empty(so_far: bool, last: u8, b: u8) -> bool
    ensures { result ≡ bytes.empty_behind so_far last b }
{
    if b == b'\n' {
        so_far || !(last == b'\\')
    } else {
        so_far && (is_blank(b) || b == b'\\')
    }
}

/// Does a line feed stand at the front?
pub fn begins_feed(text: &[u8]) -> bool
    ensures { result ≡ bytes.begins_feed text.now }
{
    match text {
        [b, ..] => *b == b'\n',
        [] => false,
    }
}

/// Do a line feed and a space stand at the front?
pub fn feed_and_space(text: &[u8]) -> bool
    ensures { result ≡ bytes.feed_and_space text.now }
{
    match text {
        [b, c, ..] => *b == b'\n' && is_space(*c),
        _ => false,
    }
}

/// What follows the spaces and splices at the front of a text, with its offset and whether its line is empty there,
/// where these stand before the text.
pub fn after_spaces(offset: u32, starts: bool, text: &[u8]) -> (u32, bool, &[u8])
    requires { offset + length text.now < 2 ^ 32 }
    ensures offset { result.0 ≡ offset + length (spaces text.now) }
    ensures starts { result.1 ≡ bytes.still_empty starts 0 (spaces text.now) }
    ensures rest { result.2.now ≡ after_spaces text.now }
{
    let mut offset = offset;
    let mut empty = starts;
    let mut last = 0u8;
    let mut rest = text;
    while let [b, more @ ..] = rest {
        if *b == b' ' {
            offset += 1;
            last = *b;
            rest = more;
        } else if is_space(*b) || (*b == b'\\' && begins_feed(more)) {
            offset += 1;
            empty = next_empty(empty, last, *b);
            last = *b;
            rest = more;
        } else {
            return (offset, empty, rest);
        }
    }
    (offset, empty, rest)
}

/// Do the spaces and splices at the front hold a line feed that is no splice's?
pub fn has_end(text: &[u8]) -> bool
    ensures { result ≡ bytes.has_end 0 (spaces text.now) }
{
    let mut last = 0u8;
    let mut rest = text;
    while let [b, more @ ..] = rest {
        if *b == b'\n' && !(last == b'\\') {
            return true;
        }
        if !(is_space(*b) || (*b == b'\\' && begins_feed(more))) {
            return false;
        }
        last = *b;
        rest = more;
    }
    false
}

impl Lexer<'_> {
    /// Passes by white space that begins with a splice (C17 5.1.1.2). No other piece begins with `\`.
    pub fn splice(&mut self, rest: &[u8]) -> Result<(), LexFault>
        requires same { self.old.rest.now ≡ ascii.backslash ∷ rest.now }
        requires short { self.old.offset + length self.old.rest.now < 2 ^ 32 }
        requires few { length self.old.tokens.items ≤ most_tokens }
        requires room { HasRoom most_tokens self.old }
        ensures turned { Turned most_tokens (place self.old) result (place self.new) }
        ensures room { HasRoom most_tokens self.new }
    {
        if !feed_and_space(rest) {
            return Err(LexFault::BadByte(self.offset));
        }
        self.white()
    }

    /// Does the white space at the front end a directive's line?
    #[tactic(auto, using(crate::proofs::Spaces::ends_is))]
    fn ends_line(&self) -> bool
        ensures { result ≡ bytes.ends_line self.now.directs (spaces self.now.rest.now) }
    {
        self.directs && has_end(self.rest)
    }

    /// Passes by white space, or takes it as the end of a directive's line.
    pub fn white(&mut self) -> Result<(), LexFault>
        requires begins { bytes.has_space (spaces self.old.rest.now) ≡ true }
        requires short { self.old.offset + length self.old.rest.now < 2 ^ 32 }
        requires few { length self.old.tokens.items ≤ most_tokens }
        requires room { HasRoom most_tokens self.old }
        ensures turned { Turned most_tokens (place self.old) result (place self.new) }
        ensures room { HasRoom most_tokens self.new }
    {
        if self.ends_line() {
            return self.line_end();
        }
        self.pass_spaces();
        Ok(())
    }

    /// Takes white space with a line feed in it as the end of a directive's line (C17 6.10).
    fn line_end(&mut self) -> Result<(), LexFault>
        requires begins { bytes.has_space (spaces self.old.rest.now) ≡ true }
        requires ends { bytes.ends_line self.old.directs (spaces self.old.rest.now) ≡ true }
        requires short { self.old.offset + length self.old.rest.now < 2 ^ 32 }
        requires few { length self.old.tokens.items ≤ most_tokens }
        requires room { HasRoom most_tokens self.old }
        ensures turned { Turned most_tokens (place self.old) result (place self.new) }
        ensures room { HasRoom most_tokens self.new }
    {
        if self.is_full() {
            return Err(LexFault::TooManyTokens(self.offset));
        }
        let name = Word::from_slice(self.alloc, b"\n")?;
        let (offset, starts, rest) = after_spaces(self.offset, self.starts, self.rest);
        self.tokens.push_reserved(Lexeme {
            offset: self.offset,
            form: Form::Name(name),
        });
        self.offset = offset;
        self.starts = starts;
        self.directs = false;
        self.rest = rest;
        Ok(())
    }

    /// Passes by spaces and splices.
    fn pass_spaces(&mut self)
        requires begins { bytes.has_space (spaces self.old.rest.now) ≡ true }
        requires within { bytes.ends_line self.old.directs (spaces self.old.rest.now) ≡ false }
        requires short { self.old.offset + length self.old.rest.now < 2 ^ 32 }
        requires room { HasRoom most_tokens self.old }
        ensures moved { Moved most_tokens (place self.old) (place self.new) }
        ensures room { HasRoom most_tokens self.new }
    {
        let (offset, starts, rest) = after_spaces(self.offset, self.starts, self.rest);
        self.offset = offset;
        self.starts = starts;
        self.rest = rest;
    }
}
