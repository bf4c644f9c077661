//! How far a declaration of a block is read, and where it and an item of the unit end.

ghost use Rattle.std.specs.Prelude.{◌≡◌, option_map};
ghost use Rattle.c_locals.specs.Stages as stages;

use crate::brackets::is_mark;
use crate::walk::closes;
use c_tree::{Form, Key, Mark};

/// How far a declarator is read: its name comes, its sizes may, or its value.
#[derive(Clone, Copy, Debug, PartialEq, Eq)]
pub enum Stage {
    Name,
    Sizes,
    Value,
}

/// Does a declaration end with this token, where so many brackets are open in it?
pub fn ends(depth: usize, form: &Form) -> bool
    ensures { result ≡ stages.ends depth form.now }
{
    is_mark(Mark::Semicolon, form)
        || depth == 0 && (closes(form) || is_mark(Mark::RightBrace, form))
}

/// The stage behind a token outside of brackets.
pub fn stage_by(stage: Stage, form: &Form) -> Stage
    ensures { result ≡ stages.stage_by stage form.now }
{
    if is_mark(Mark::Comma, form) {
        Stage::Name
    } else if is_mark(Mark::Assign, form) {
        Stage::Value
    } else {
        stage
    }
}

/// And behind any.
pub fn stage_past(depth: usize, stage: Stage, form: &Form) -> Stage
    ensures { result ≡ stages.stage_past depth stage form.now }
{
    if depth == 0 {
        stage_by(stage, form)
    } else {
        stage
    }
}

/// The name that a token declares.
pub fn declares(stage: Stage, form: &Form) -> Option<&[u8]>
    ensures { option_map (λ w. w.now) result ≡ stages.declares stage form.now }
{
    match (stage, form) {
        (Stage::Name, Form::Name(word)) => Some(word.as_slice()),
        _ => None,
    }
}

/// Is it a value that comes?
pub fn is_value(stage: Stage) -> bool
    ensures { result ≡ stages.is_value stage }
{
    match stage {
        Stage::Value => true,
        _ => false,
    }
}

/// Is it `static`?
pub fn is_static(form: &Form) -> bool
    ensures { result ≡ stages.is_static form.now }
{
    match form {
        Form::Key(Key::Static) => true,
        _ => false,
    }
}

/// Is it an include?
pub fn is_include(form: &Form) -> bool
    ensures { result ≡ stages.is_include form.now }
{
    match form {
        Form::Include => true,
        _ => false,
    }
}

/// Does an item of the unit end with the token?
pub fn ends_item(blocks: usize, form: &Form) -> bool
    ensures { result ≡ stages.ends_item blocks form.now }
{
    blocks == 0
        && (is_mark(Mark::Semicolon, form) || is_mark(Mark::RightBrace, form) || is_include(form))
}
