//! The headers whose functions the library has.

ghost use Rattle.std.specs.Prelude.{◌≡◌};
ghost use Rattle.std.specs.Str.{bytes_eq};
ghost use Rattle.c_lex.specs.Tables.{lookup};
ghost use Rattle.c_library.specs.Headers as headers;

use c_tree::{Form, same_bytes};

/// A header whose functions the library has.
#[derive(Clone, Copy, Debug, PartialEq, Eq)]
pub enum Header {
    Stdio,
    Ctype,
    Stdlib,
    String,
}

/// The headers whose token stands before a place.
#[derive(Clone, Copy, Debug, PartialEq, Eq)]
pub struct Seen {
    pub stdio: bool,
    pub ctype: bool,
    pub stdlib: bool,
    pub string: bool,
}

/// Are two names one?
pub fn same_name(a: &[u8], b: &[u8]) -> bool
    ensures { result ≡ bytes_eq a.now b.now }
{
    same_bytes(a, b)
}

/// The header with this name in brackets.
pub fn bracketed(name: &[u8]) -> Option<Header>
    ensures { result ≡ lookup name.now headers.bracketed }
{
    match name {
        [b'<', ..] => {
            if same_name(b"<ctype.h>", name) {
                Some(Header::Ctype)
            } else if same_name(b"<stdlib.h>", name) {
                Some(Header::Stdlib)
            } else if same_name(b"<string.h>", name) {
                Some(Header::String)
            } else {
                None
            }
        }
        _ => None,
    }
}

/// The header that a token is, if it is one of these.
pub fn header_of(form: &Form) -> Option<Header>
    ensures { result ≡ headers.header_of form.now }
{
    match form {
        Form::Include => Some(Header::Stdio),
        Form::Name(name) => bracketed(name.as_slice()),
        _ => None,
    }
}

/// Is the token that of one of these headers?
pub fn is_served(form: &Form) -> bool
    ensures { result ≡ headers.is_served form.now }
{
    header_of(form).is_some()
}

/// Are two headers one?
pub fn same_header(a: Header, b: Header) -> bool
    ensures { result ≡ headers.same_header a b }
{
    match (a, b) {
        (Header::Stdio, Header::Stdio) => true,
        (Header::Ctype, Header::Ctype) => true,
        (Header::Stdlib, Header::Stdlib) => true,
        (Header::String, Header::String) => true,
        _ => false,
    }
}

impl Seen {
    /// No header.
    pub fn none() -> Seen
        ensures { result ≡ headers.none_seen }
    {
        Seen {
            stdio: false,
            ctype: false,
            stdlib: false,
            string: false,
        }
    }

    /// Is the header among them?
    pub fn has(&self, header: Header) -> bool
        ensures { result ≡ headers.has_seen header self.now }
    {
        match header {
            Header::Stdio => self.stdio,
            Header::Ctype => self.ctype,
            Header::Stdlib => self.stdlib,
            Header::String => self.string,
        }
    }

    /// The header among them.
    pub fn with(self, header: Header) -> Seen
        ensures { result ≡ headers.with_header header self }
    {
        match header {
            Header::Stdio => Seen {
                stdio: true,
                ..self
            },
            Header::Ctype => Seen {
                ctype: true,
                ..self
            },
            Header::Stdlib => Seen {
                stdlib: true,
                ..self
            },
            Header::String => Seen {
                string: true,
                ..self
            },
        }
    }
}
