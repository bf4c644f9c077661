//! What is told of the functions of a text.

ghost use Rattle.std.specs.Prelude.{◌≡◌, ◌++◌, OnOk, IfOk};
ghost use Rattle.trips_listing_text.specs.Functions.{told_of, told_item, told_all};

use crate::places::{closing, is_include, line_at};
use crate::scalars::scalar_names;
use crate::told::Told;
use base::{Items, Memory};
use c_tree::{Lexeme, Param, Stmt, Top, TopNode};
use std::alloc::Global;

/// What is told of a definition.
fn told_of(
    alloc: Global,
    text: &[u8],
    tokens: &[Lexeme],
    at: u32,
    name: &[u8],
    params: &[Param],
    body: &Stmt,
) -> Result<Told, Memory>
    ensures { IfOk result (λ t.
        t ≡ told_of text.now tokens.now at name.now params.now body.now) }
{
    let names = scalar_names(alloc, params, body)?;
    let name = Items::from_slice(alloc, name)?;
    Ok(Told {
        name,
        library: is_include(text, at as usize),
        first: line_at(text, at as usize),
        last: line_at(text, closing(body.offset, tokens) as usize),
        names,
    })
}

/// What is told of an item, where it defines a function.
fn put_item(
    all: &mut Items<Told>,
    alloc: Global,
    text: &[u8],
    tokens: &[Lexeme],
    item: &Top,
) -> Result<(), Memory>
    ensures { OnOk result (all.new
        ≡ all.old ++ told_item text.now tokens.now item.now.offset item.now.node) }
{
    match &item.node {
        TopNode::Include => Ok(()),
        TopNode::Global { .. } => Ok(()),
        TopNode::Func { body: None, .. } => Ok(()),
        TopNode::Func {
            name,
            params,
            body: Some(body),
            ..
        } => {
            let told = told_of(
                alloc,
                text,
                tokens,
                item.offset,
                name.as_slice(),
                params.as_slice(),
                body,
            )?;
            all.push(told)?;
            Ok(())
        }
    }
}

/// What a listing tells of each function of a text, by the text's tokens and its tree, in the order of the text. Want
/// of memory is the only error.
pub fn told_all(
    alloc: Global,
    text: &[u8],
    tokens: &[Lexeme],
    items: &[Top],
) -> Result<Items<Told>, Memory>
    ensures { IfOk result (λ all. all ≡ told_all text.now tokens.now items.now) }
{
    let mut all = Items::new(alloc);
    for item in items {
        put_item(&mut all, alloc, text, tokens, item)?;
    }
    Ok(all)
}
