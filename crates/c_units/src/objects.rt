//! The objects that an item of a unit declares.

ghost use Rattle.std.specs.Prelude.{◌≡◌, [], ◌∷◌, option_map, is_some, IfOk, OnOk};
ghost use Rattle.c_locals.specs.Brackets as brackets;
ghost use Rattle.c_locals.specs.Values as values;
ghost use Rattle.c_units.specs.Objects as objects;

use crate::braces::unbraced;
use base::Items;
use c_library::token_copied;
use c_locals::{first_piece, is_mark, is_word, split};
use c_tree::{Form, Key, Lexeme, Mark};
use c_words::{Named, cut, is_key, is_type_word, one, put_keys, spelling, type_of};
use std::alloc::{AllocError, Global};

/// A declaration of an object: the offset of its `extern`, if it has one, and of its name, the words of its type with
/// its name and its sizes, its value from the `=` on, which is nothing where it has none, and whether the value
/// stood in braces that went.
#[derive(Drop)]
pub struct Declaration {
    pub external: Option<u32>,
    pub at: u32,
    pub head: Items<Lexeme>,
    pub value: Items<Lexeme>,
    pub is_bared: bool,
}

// TOKENS

/// Copies of tokens. Want of memory is the only error, here and below.
pub fn tokens_copied(alloc: Global, tokens: &[Lexeme]) -> Result<Items<Lexeme>, AllocError>
    ensures { IfOk result (λ out. out ≡ tokens.now) }
{
    let mut out = Items::new(alloc);
    let mut rest = tokens;
    while let [token, more @ ..] = rest {
        out.push(token_copied(alloc, token)?)?;
        rest = more;
    }
    Ok(out)
}

impl Declaration {
    /// The same declaration once more.
    pub fn copy(&self, alloc: Global) -> Result<Declaration, AllocError>
        ensures { IfOk result (λ d. d ≡ self.now) }
    {
        Ok(Declaration {
            external: self.external,
            at: self.at,
            head: tokens_copied(alloc, self.head.as_slice())?,
            value: tokens_copied(alloc, self.value.as_slice())?,
            is_bared: self.is_bared,
        })
    }
}

// WORDS

/// Is it `extern`?
pub fn is_extern(form: &Form) -> bool
    ensures { result ≡ objects.is_extern form.now }
{
    is_key(Key::Extern, form)
}

/// Is it a qualifier?
fn is_qualifier(form: &Form) -> bool
    ensures { result ≡ objects.is_qualifier form.now }
{
    is_key(Key::Const, form) || is_key(Key::Volatile, form)
}

/// The words of the type that tokens begin with, without qualifiers.
pub fn words(alloc: Global, external: bool, tokens: &[Lexeme]) -> Result<Items<Lexeme>, AllocError>
    ensures { IfOk result (λ out. out ≡ objects.words_from external [] tokens.now) }
{
    let mut out = Items::new(alloc);
    let mut rest = tokens;
    while let [token, more @ ..] = rest {
        if is_word(&token.form) {
            out.push(token_copied(alloc, token)?)?;
        } else if !(external && is_qualifier(&token.form)) {
            return Ok(out);
        }
        rest = more;
    }
    Ok(out)
}

/// The tokens behind them.
pub fn behind_words(external: bool, tokens: &[Lexeme]) -> &[Lexeme]
    ensures { result.now ≡ objects.behind_words external tokens.now }
{
    let mut rest = tokens;
    while let [token, more @ ..] = rest {
        if !(is_word(&token.form) || external && is_qualifier(&token.form)) {
            return rest;
        }
        rest = more;
    }
    rest
}

// DECLARATORS

/// Does the declarator of an object go on so behind its name?
fn goes_on(behind: &[Lexeme]) -> bool
    ensures { result ≡ objects.goes_on behind.now }
{
    match behind {
        [] => true,
        [token, ..] => {
            is_mark(Mark::LeftBracket, &token.form) || is_mark(Mark::Assign, &token.form)
        }
    }
}

/// Is it a name?
pub fn is_name(form: &Form) -> bool
    ensures { result ≡ values.is_name form.now }
{
    match form {
        Form::Name(_) => true,
        _ => false,
    }
}

/// Is it the declarator of an object?
pub fn is_object(piece: &[Lexeme]) -> bool
    ensures { result ≡ objects.is_object piece.now }
{
    match piece {
        [] => false,
        [name, behind @ ..] => is_name(&name.form) && goes_on(behind),
    }
}

/// Is each piece of these tokens?
fn are_objects(tokens: &[Lexeme]) -> bool
    ensures { result ≡ objects.are_objects (brackets.pieces tokens.now) }
{
    let mut rest = Some(tokens);
    while let Some(tokens) = rest {
        let (piece, further) = first_piece(tokens);
        if !is_object(piece) {
            return false;
        }
        rest = further;
    }
    true
}

/// The sizes of an object.
fn sizes<'a>(behind: &'a [Lexeme], parts: Option<(&'a [Lexeme], &'a [Lexeme])>) -> &'a [Lexeme]
    ensures { result.now ≡ objects.sizes_by behind.now (option_map (λ p. (p.0.now, p.1.now)) parts.entry) }
{
    match parts {
        None => behind,
        Some((sizes, _)) => sizes,
    }
}

/// The value of an object without its braces, if these go.
fn bare<'a>(words: &[Lexeme], parts: Option<(&'a [Lexeme], &'a [Lexeme])>) -> Option<&'a [Lexeme]>
    ensures { option_map (λ v. v.now) result
        ≡ objects.bare_by words.now (option_map (λ p. (p.0.now, p.1.now)) parts.entry) }
{
    match parts {
        None => None,
        Some((sizes, value)) => unbraced(words, sizes, value),
    }
}

/// Does it stand in braces that go?
fn is_bared(words: &[Lexeme], parts: Option<(&[Lexeme], &[Lexeme])>) -> bool
    ensures { result ≡ is_some (objects.bare_by words.now (option_map (λ p. (p.0.now, p.1.now)) parts.entry)) }
{
    match bare(words, parts) {
        None => false,
        Some(_) => true,
    }
}

/// The tokens, or those that stand for them.
fn or_bare<'a>(tokens: &'a [Lexeme], bare: Option<&'a [Lexeme]>) -> &'a [Lexeme]
    ensures { result.now ≡ objects.or_bare tokens.now (option_map (λ v. v.now) bare.entry) }
{
    match bare {
        None => tokens,
        Some(bare) => bare,
    }
}

/// The value of an object.
fn value(
    alloc: Global,
    words: &[Lexeme],
    at: u32,
    parts: Option<(&[Lexeme], &[Lexeme])>,
) -> Result<Items<Lexeme>, AllocError>
    ensures { IfOk result (λ out. out
        ≡ objects.value_by words.now at (option_map (λ p. (p.0.now, p.1.now)) parts.entry)) }
{
    let mut out = Items::new(alloc);
    match parts {
        None => Ok(out),
        Some((sizes, value)) => {
            out.push(Lexeme {
                offset: at,
                form: Form::Mark(Mark::Assign),
            })?;
            out.append(tokens_copied(alloc, or_bare(value, unbraced(words, sizes, value)))?)?;
            Ok(out)
        }
    }
}

/// The declaration of an object.
fn declaration_of(
    alloc: Global,
    external: Option<u32>,
    words: &[Lexeme],
    name: &Lexeme,
    behind: &[Lexeme],
) -> Result<Declaration, AllocError>
    ensures { IfOk result (λ d. d ≡ objects.declaration external words.now name.now behind.now) }
{
    let parts = split(Mark::Assign, behind);
    let mut head = tokens_copied(alloc, words)?;
    head.push(token_copied(alloc, name)?)?;
    head.append(tokens_copied(alloc, sizes(behind, parts))?)?;
    Ok(Declaration {
        external,
        at: name.offset,
        head,
        value: value(alloc, words, name.offset, parts)?,
        is_bared: is_bared(words, parts),
    })
}

/// Adds the declaration of a declarator.
fn add_piece(
    alloc: Global,
    external: Option<u32>,
    words: &[Lexeme],
    piece: &[Lexeme],
    out: &mut Items<Declaration>,
) -> Result<(), AllocError>
    ensures { OnOk result (out.new ≡ objects.with_piece external words.now out.old piece.now) }
{
    match piece {
        [] => Ok(()),
        [name, behind @ ..] => out.push(declaration_of(alloc, external, words, name, behind)?),
    }
}

/// The declaration of each declarator.
fn each(
    alloc: Global,
    external: Option<u32>,
    words: &[Lexeme],
    body: &[Lexeme],
) -> Result<Items<Declaration>, AllocError>
    ensures { IfOk result (λ out. out ≡ objects.each_from external words.now [] (brackets.pieces body.now)) }
{
    let mut out = Items::new(alloc);
    let mut rest = Some(body);
    while let Some(tokens) = rest {
        let (piece, further) = first_piece(tokens);
        add_piece(alloc, external, words, piece, &mut out)?;
        rest = further;
    }
    Ok(out)
}

// ITEMS

/// The declarations of declarators, if all are of objects.
fn read_body(
    alloc: Global,
    external: Option<u32>,
    words: &[Lexeme],
    parts: Option<(&[Lexeme], &[Lexeme])>,
) -> Result<Items<Declaration>, AllocError>
    ensures { IfOk result (λ out. out
        ≡ objects.read_body external words.now (option_map (λ p. (p.0.now, p.1.now)) parts.entry)) }
{
    match parts {
        Some((body, [])) => {
            if are_objects(body) {
                each(alloc, external, words, body)
            } else {
                Ok(Items::new(alloc))
            }
        }
        _ => Ok(Items::new(alloc)),
    }
}

/// May these words be those of a declaration of objects?
fn may_declare(external: bool, words: &[Lexeme]) -> bool
    ensures { result ≡ objects.may_declare external words.now }
{
    let mut rest = words;
    while let [word, more @ ..] = rest {
        let form = &word.form;
        if !(is_type_word(form) || external && (is_extern(form) || is_qualifier(form))) {
            return false;
        }
        rest = more;
    }
    true
}

/// The words of a type in the order of the grammar, at this place.
fn spelled(alloc: Global, at: u32, named: Named) -> Result<Items<Lexeme>, AllocError>
    ensures { IfOk result (λ out. out ≡ objects.spelled at named) }
{
    let mut out = Items::new(alloc);
    put_keys(at, spelling(named), &mut out)?;
    Ok(out)
}

/// The declarations of this type.
fn read_typed(
    alloc: Global,
    external: Option<u32>,
    at: u32,
    named: Option<Named>,
    behind: &[Lexeme],
) -> Result<Items<Declaration>, AllocError>
    ensures { IfOk result (λ out. out ≡ objects.read_typed external at named behind.now) }
{
    match named {
        None | Some(Named::Void) => Ok(Items::new(alloc)),
        Some(named) => {
            let words = spelled(alloc, at, named)?;
            read_body(
                alloc,
                external,
                words.as_slice(),
                split(Mark::Semicolon, behind),
            )
        }
    }
}

/// The place, if what stands there is `extern`.
fn place_if(external: bool, at: u32) -> Option<u32>
    ensures { result ≡ objects.place_if external at }
{
    if external { Some(at) } else { None }
}

/// The declarations behind these words, which begin at this place.
fn read_behind(
    alloc: Global,
    at: u32,
    words: &[Lexeme],
    behind: &[Lexeme],
) -> Result<Items<Declaration>, AllocError>
    ensures { IfOk result (λ out. out ≡ objects.read_behind at words.now behind.now) }
{
    let external = one(Key::Extern, words);
    if may_declare(external, words) {
        read_typed(alloc, place_if(external, at), at, type_of(words), behind)
    } else {
        Ok(Items::new(alloc))
    }
}

/// The objects that an item declares.
pub fn read(alloc: Global, item: &[Lexeme]) -> Result<Items<Declaration>, AllocError>
    ensures { IfOk result (λ out. out ≡ objects.read item.now) }
{
    match item {
        [] => Ok(Items::new(alloc)),
        [token, ..] => {
            let (words, behind) = cut(item);
            read_behind(alloc, token.offset, words, behind)
        }
    }
}
