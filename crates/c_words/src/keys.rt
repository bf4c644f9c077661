//! The keywords of declarations, and runs of them.

ghost use Rattle.std.specs.Prelude.{◌≡◌, ◌≤◌, length};
ghost use Rattle.c_tree.specs.declared.Form.TheVariants as form;
ghost use Rattle.c_tree.specs.declared.Key.TheVariants as key;
ghost use Rattle.c_words.specs.Keys as keys;

use c_tree::{Form, Key, Lexeme};

/// The number of a keyword of declarations, by which they are told apart.
fn key_number(key: Key) -> u8
    ensures { result ≡ keys.key_number key }
{
    match key {
        Key::Void => 1,
        Key::Bool => 2,
        Key::Char => 3,
        Key::Short => 4,
        Key::Int => 5,
        Key::Long => 6,
        Key::Signed => 7,
        Key::Unsigned => 8,
        Key::Const => 9,
        Key::Volatile => 10,
        Key::Register => 11,
        Key::Static => 12,
        Key::Extern => 13,
        Key::Inline => 14,
        Key::Auto => 15,
        _ => 0,
    }
}

/// The number of a token, which is 0 but for these keywords.
fn number(form: &Form) -> u8
    ensures { result ≡ keys.number form.now }
{
    match form {
        Form::Key(key) => key_number(*key),
        _ => 0,
    }
}

/// Is it this one of these keywords?
pub fn is_key(key: Key, form: &Form) -> bool
    ensures { result ≡ keys.is_key key form.now }
{
    number(form) == key_number(key)
}

/// Is it one of them?
pub fn is_word(form: &Form) -> bool
    ensures { result ≡ keys.is_word form.now }
{
    number(form) != 0
}

/// Is the keyword one of them?
pub fn declares(key: Key) -> bool
    ensures { result ≡ keys.is_word (form.Key key) }
{
    key_number(key) != 0
}

/// Is it `const`?
pub fn is_const(word: Key) -> bool
    ensures { result ≡ keys.is_key key.Const (form.Key word) }
{
    key_number(word) == key_number(Key::Const)
}

/// Is it one that names a type?
pub fn is_type_word(form: &Form) -> bool
    ensures { result ≡ keys.is_type_word form.now }
{
    is_word(form) && number(form) <= 8
}

/// Is it a storage class?
fn is_storage(form: &Form) -> bool
    ensures { result ≡ keys.is_storage form.now }
{
    is_key(Key::Static, form)
        || is_key(Key::Extern, form)
        || is_key(Key::Register, form)
        || is_key(Key::Auto, form)
}

/// How many times the keyword stands among these.
pub fn count(key: Key, words: &[Lexeme]) -> usize
    ensures { result ≡ keys.count key words.now }
{
    let most = words.len();
    let mut total: usize = 0;
    let mut rest = words;
    while let [token, more @ ..] = rest {
        if is_key(key, &token.form) {
            total += 1;
        }
        rest = more;
    }
    total
}

/// How many storage classes.
pub fn storages(words: &[Lexeme]) -> usize
    ensures { result ≡ keys.storages words.now }
{
    let most = words.len();
    let mut total: usize = 0;
    let mut rest = words;
    while let [token, more @ ..] = rest {
        if is_storage(&token.form) {
            total += 1;
        }
        rest = more;
    }
    total
}

/// Does it not stand there?
pub fn none(key: Key, words: &[Lexeme]) -> bool
    ensures { result ≡ keys.none key words.now }
{
    count(key, words) == 0
}

/// Once?
pub fn one(key: Key, words: &[Lexeme]) -> bool
    ensures { result ≡ keys.one key words.now }
{
    count(key, words) == 1
}

/// Once at most?
pub fn few(key: Key, words: &[Lexeme]) -> bool
    ensures { result ≡ keys.few key words.now }
{
    count(key, words) <= 1
}
