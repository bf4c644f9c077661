//! Which sentence is said of a fault, by the word at its place.

ghost use Rattle.std.specs.Prelude.{◌≡◌};
ghost use Rattle.trips_messages.specs.Choices as choices;

use crate::fault::Fault;
use crate::saying::Saying;
use crate::words::{
    has_point, is_aggregate, is_classifying, is_conditional, is_copying, is_declared, is_floating,
    is_general, is_header, is_label, is_leaving, is_library, is_new_type, is_other_byte,
    is_qualifier, is_size, is_storage,
};

/// Of a byte that begins no token.
fn byte_saying(word: &[u8]) -> Saying
    ensures { result ≡ choices.byte_saying word.now }
{
    if word == b".".as_slice() {
        Saying::Member
    } else if word == b"\\".as_slice() {
        Saying::Splice
    } else if word == b"#".as_slice() {
        Saying::LateHash
    } else if is_other_byte(word) {
        Saying::OtherByte
    } else {
        Saying::NoToken
    }
}

/// Of a constant that is none.
fn literal_saying(word: &[u8]) -> Saying
    ensures { result ≡ choices.literal_saying word.now }
{
    if word == b"'".as_slice() {
        Saying::Character
    } else if word == b"\"".as_slice() {
        Saying::Strings
    } else if has_point(word) {
        Saying::FloatingConstant
    } else {
        Saying::Number
    }
}

/// Of a line that begins with `#`.
fn directive_saying(word: &[u8]) -> Saying
    ensures { result ≡ choices.directive_saying word.now }
{
    if is_header(word) {
        Saying::Header
    } else if is_conditional(word) {
        Saying::Conditional
    } else {
        Saying::OtherDirective
    }
}

/// Of a word that the language leaves out, or any other.
fn left_out_saying(word: &[u8]) -> Saying
    ensures { result ≡ choices.left_out_saying word.now }
{
    if is_aggregate(word) {
        Saying::Aggregate
    } else if is_new_type(word) {
        Saying::NewType
    } else if is_storage(word) {
        Saying::Storage
    } else if is_qualifier(word) {
        Saying::Qualifier
    } else if is_floating(word) {
        Saying::Floating
    } else if is_size(word) {
        Saying::Size
    } else if word == b"_Bool".as_slice() {
        Saying::Boolean
    } else if word == b"goto".as_slice() {
        Saying::Jump
    } else {
        Saying::NotHere
    }
}

/// Of a token with which no text goes on.
pub fn mark_saying(word: &[u8]) -> Saying
    ensures { result ≡ choices.mark_saying word.now }
{
    if word == b"*".as_slice() {
        Saying::Pointer
    } else if word == b"&".as_slice() {
        Saying::Address
    } else if word == b"long".as_slice() {
        Saying::Long
    } else if word == b":".as_slice() {
        Saying::Colon
    } else if word == b"\"".as_slice() {
        Saying::StringHere
    } else if word == b"{".as_slice() {
        Saying::OpenBrace
    } else if word == b"=".as_slice() {
        Saying::Equals
    } else if word == b"else".as_slice() {
        Saying::Else
    } else if word == b"}".as_slice() {
        Saying::CloseBrace
    } else if word == b"".as_slice() {
        Saying::NoText
    } else {
        left_out_saying(word)
    }
}

/// Of a name that is not known.
pub fn name_saying(word: &[u8], called: bool) -> Saying
    ensures { result ≡ choices.name_saying word.now called }
{
    if is_declared(word) {
        Saying::Undeclared
    } else if word == b"printf".as_slice() {
        Saying::Printing
    } else if is_classifying(word) {
        Saying::Classifying
    } else if is_general(word) {
        Saying::General
    } else if is_copying(word) {
        Saying::Copying
    } else if is_library(word) {
        Saying::Library
    } else if called {
        Saying::NoFunction
    } else {
        Saying::NoName
    }
}

/// Of what does not fit.
fn fit_saying(word: &[u8]) -> Saying
    ensures { result ≡ choices.fit_saying word.now }
{
    if word == b"return".as_slice() {
        Saying::Return
    } else if is_leaving(word) {
        Saying::NoLoop
    } else {
        Saying::NoFit
    }
}

/// Of what stands twice.
fn twice_saying(word: &[u8]) -> Saying
    ensures { result ≡ choices.twice_saying word.now }
{
    if is_label(word) {
        Saying::LabelTwice
    } else {
        Saying::NameTwice
    }
}

/// What is said of a fault at a word, which may be called.
pub fn saying(fault: Fault, word: &[u8], called: bool) -> Saying
    ensures { result ≡ choices.saying fault word.now called }
{
    match fault {
        Fault::BadByte => byte_saying(word),
        Fault::BadLiteral => literal_saying(word),
        Fault::Unclosed => Saying::Comment,
        Fault::TooManyTokens => Saying::Tokens,
        Fault::Directive => directive_saying(word),
        Fault::Unbalanced => Saying::Group,
        Fault::Redefined => Saying::OtherBody,
        Fault::BadDefine => Saying::BadLine,
        Fault::TooManyReplaced => Saying::Replaced,
        Fault::Format => Saying::Format,
        Fault::Syntax => mark_saying(word),
        Fault::TooDeep => Saying::Deep,
        Fault::Unknown => name_saying(word, called),
        Fault::Twice => twice_saying(word),
        Fault::Mismatch => fit_saying(word),
        Fault::Arity => Saying::Arguments,
        Fault::NoMain => Saying::Main,
        Fault::TooManyScalars => Saying::Scalars,
        Fault::TooManyParams => Saying::Parameters,
        Fault::Need => Saying::Temporaries,
        Fault::TooLarge => Saying::Large,
    }
}
