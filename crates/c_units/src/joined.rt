//! Declarations of one object, as one.

ghost use Rattle.std.specs.Prelude.{◌≡◌, ◌≤◌, ◌+◌, [], length, IfOk, OnOk};
ghost use Rattle.c_units.specs.Joined as joined;

use crate::completed::{each_completed, is_any};
use crate::cuts::items;
use crate::objects::{Declaration, read, tokens_copied};
use crate::same::same_tokens;
use base::Items;
use c_locals::is_mark;
use c_tree::{Form, Key, Lexeme, Mark};
use std::alloc::{AllocError, Global};

/// What is told of a unit so far: the declarations of its objects, and its tokens.
#[derive(Drop)]
pub struct Told {
    pub before: Items<Declaration>,
    pub out: Items<Lexeme>,
}

// LOOKING UP

/// How many declare the object.
fn count(declarations: &[Declaration], head: &[Lexeme]) -> usize
    ensures { result ≡ joined.count declarations.now head.now }
{
    let size = declarations.len();
    let mut found: usize = 0;
    let mut rest = declarations;
    while let [first, more @ ..] = rest {
        if same_tokens(first.head.as_slice(), head) {
            found += 1;
        }
        rest = more;
    }
    found
}

impl Declaration {
    /// Does it make an object?
    fn makes(&self) -> bool
        ensures { result ≡ joined.makes self.now }
    {
        self.external.is_none() || self.has_value()
    }
}

/// The first value that one of these gives the object.
fn value_of<'a>(declarations: &'a [Declaration], head: &[Lexeme]) -> &'a [Lexeme]
    ensures { result.now ≡ joined.value_of declarations.now head.now }
{
    let mut rest = declarations;
    while let [first, more @ ..] = rest {
        if same_tokens(first.head.as_slice(), head) && first.has_value() {
            return first.value.as_slice();
        }
        rest = more;
    }
    &[]
}

/// Does one of these make the object?
fn is_made(declarations: &[Declaration], head: &[Lexeme]) -> bool
    ensures { result ≡ joined.is_made declarations.now head.now }
{
    let mut rest = declarations;
    while let [first, more @ ..] = rest {
        if same_tokens(first.head.as_slice(), head) && first.makes() {
            return true;
        }
        rest = more;
    }
    false
}

// ONE DECLARATION

/// `extern` at its place, if it has one. Want of memory is the only error, here and below.
fn extern_at(alloc: Global, external: Option<u32>) -> Result<Items<Lexeme>, AllocError>
    ensures { IfOk result (λ out. out ≡ joined.extern_at external) }
{
    let mut out = Items::new(alloc);
    match external {
        None => Ok(out),
        Some(offset) => {
            out.push(Lexeme {
                offset,
                form: Form::Key(Key::Extern),
            })?;
            Ok(out)
        }
    }
}

/// And where none of all makes the object.
fn extern_of(
    alloc: Global,
    all: &[Declaration],
    declaration: &Declaration,
) -> Result<Items<Lexeme>, AllocError>
    ensures { IfOk result (λ out. out ≡ joined.extern_of all.now declaration.now) }
{
    if is_made(all, declaration.head.as_slice()) {
        Ok(Items::new(alloc))
    } else {
        extern_at(alloc, declaration.external)
    }
}

/// A declaration of its own, with this value.
fn whole(
    alloc: Global,
    all: &[Declaration],
    declaration: &Declaration,
    value: &[Lexeme],
) -> Result<Items<Lexeme>, AllocError>
    ensures { IfOk result (λ out. out ≡ joined.whole all.now declaration.now value.now) }
{
    let mut out = extern_of(alloc, all, declaration)?;
    out.append(tokens_copied(alloc, declaration.head.as_slice())?)?;
    out.append(tokens_copied(alloc, value)?)?;
    out.push(Lexeme {
        offset: declaration.at,
        form: Form::Mark(Mark::Semicolon),
    })?;
    Ok(out)
}

/// Is a declaration behind these one that counts, where one of these has a value?
fn counts(before: &[Declaration], declaration: &Declaration) -> bool
    ensures { result ≡ joined.counts before.now declaration.now }
{
    declaration.has_value() && is_any(value_of(before, declaration.head.as_slice()))
}

/// What stands for a declaration behind these, of all.
fn single(
    alloc: Global,
    before: &[Declaration],
    all: &[Declaration],
    declaration: &Declaration,
) -> Result<Items<Lexeme>, AllocError>
    ensures { IfOk result (λ out. out ≡ joined.single before.now all.now declaration.now) }
{
    let head = declaration.head.as_slice();
    if count(before, head) == 0 {
        whole(alloc, all, declaration, value_of(all, head))
    } else if counts(before, declaration) {
        whole(alloc, all, declaration, declaration.value.as_slice())
    } else {
        Ok(Items::new(alloc))
    }
}

// THE UNIT

/// Is a declaration the only one of its object, and neither `extern` nor with a value whose braces went?
fn is_alone(all: &[Declaration], declaration: &Declaration) -> bool
    ensures { result ≡ joined.is_alone all.now declaration.now }
{
    declaration.external.is_none()
        && !declaration.is_bared
        && count(all, declaration.head.as_slice()) == 1
}

/// Is each of these?
fn are_alone(all: &[Declaration], declarations: &[Declaration]) -> bool
    ensures { result ≡ joined.are_alone all.now declarations.now }
{
    let mut rest = declarations;
    while let [first, more @ ..] = rest {
        if !is_alone(all, first) {
            return false;
        }
        rest = more;
    }
    true
}

impl Told {
    /// Before the first item. It takes no memory.
    fn beginning(alloc: Global) -> Told
        ensures { result ≡ joined.beginning }
    {
        Told {
            before: Items::new(alloc),
            out: Items::new(alloc),
        }
    }

    /// Tells a declaration.
    fn tell_one(
        &mut self,
        alloc: Global,
        all: &[Declaration],
        declaration: &Declaration,
    ) -> Result<(), AllocError>
        ensures { OnOk result (self.new ≡ joined.one_told all.now declaration.now self.old) }
    {
        let tokens = single(alloc, self.before.as_slice(), all, declaration)?;
        self.out.append(tokens)?;
        self.before.push(declaration.copy(alloc)?)
    }

    /// Tells these.
    fn tell_each(
        &mut self,
        alloc: Global,
        all: &[Declaration],
        declarations: &[Declaration],
    ) -> Result<(), AllocError>
        ensures { OnOk result (self.new ≡ joined.each_told all.now declarations.now self.old) }
    {
        let mut rest = declarations;
        while let [first, more @ ..] = rest {
            self.tell_one(alloc, all, first)?;
            rest = more;
        }
        Ok(())
    }

    /// Tells an item that stays as it is.
    fn keep(
        &mut self,
        alloc: Global,
        item: &[Lexeme],
        declarations: Items<Declaration>,
    ) -> Result<(), AllocError>
        ensures { OnOk result (self.new ≡ joined.kept item.now declarations self.old) }
    {
        self.out.append(tokens_copied(alloc, item)?)?;
        self.before.append(declarations)
    }

    /// Tells an item with these declarations.
    fn tell_item(
        &mut self,
        alloc: Global,
        all: &[Declaration],
        item: &[Lexeme],
        declarations: Items<Declaration>,
    ) -> Result<(), AllocError>
        ensures { OnOk result (self.new ≡ joined.item_told all.now item.now declarations self.old) }
    {
        if are_alone(all, declarations.as_slice()) {
            self.keep(alloc, item, declarations)
        } else {
            self.tell_each(alloc, all, declarations.as_slice())
        }
    }

    /// Tells these items.
    fn tell_items(
        &mut self,
        alloc: Global,
        all: &[Declaration],
        items: &[Items<Lexeme>],
    ) -> Result<(), AllocError>
        ensures { OnOk result (self.new ≡ joined.items_told all.now items.now self.old) }
    {
        let mut rest = items;
        while let [item, more @ ..] = rest {
            let declarations = read(alloc, item.as_slice())?;
            let declarations = each_completed(alloc, all, declarations.as_slice())?;
            self.tell_item(alloc, all, item.as_slice(), declarations)?;
            rest = more;
        }
        Ok(())
    }
}

/// The declarations of these items.
fn all(alloc: Global, items: &[Items<Lexeme>]) -> Result<Items<Declaration>, AllocError>
    ensures { IfOk result (λ out. out ≡ joined.all_from [] items.now) }
{
    let mut out = Items::new(alloc);
    let mut rest = items;
    while let [item, more @ ..] = rest {
        out.append(read(alloc, item.as_slice())?)?;
        rest = more;
    }
    Ok(out)
}

/// The same, with the sizes that they leave out.
fn all_completed(alloc: Global, items: &[Items<Lexeme>]) -> Result<Items<Declaration>, AllocError>
    ensures { IfOk result (λ out. out ≡ joined.all_completed items.now) }
{
    let all = all(alloc, items)?;
    each_completed(alloc, all.as_slice(), all.as_slice())
}

/// The items, each object of which is declared once.
fn joined_items(alloc: Global, items: &[Items<Lexeme>]) -> Result<Items<Lexeme>, AllocError>
    ensures { IfOk result (λ out. out ≡ joined.joined_items items.now) }
{
    let all = all_completed(alloc, items)?;
    let mut told = Told::beginning(alloc);
    told.tell_items(alloc, all.as_slice(), items)?;
    let Told { out, .. } = told;
    Ok(out)
}

/// A unit that declares each object once.
pub fn joined(alloc: Global, tokens: &[Lexeme]) -> Result<Items<Lexeme>, AllocError>
    ensures { IfOk result (λ out. out ≡ joined.joined tokens.now) }
{
    let items = items(alloc, tokens)?;
    joined_items(alloc, items.as_slice())
}
