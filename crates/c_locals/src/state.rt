//! A unit, as far as it is read.

ghost use Rattle.std.specs.Prelude.{◌≡◌, ◌<◌, ◌∷◌, [], OnOk};
ghost use Rattle.c_locals.specs.States as states;

use crate::brackets::depth_past;
use crate::names::Names;
use crate::stages::{Stage, stage_past};
use base::Items;
use c_tree::{Form, Key, Lexeme};
use std::alloc::{AllocError, Global};

/// What a token of a block stands in: no declaration, one that is not static or a cast, or a static one.
#[derive(Clone, Copy, Debug, PartialEq, Eq)]
pub enum Mode {
    Code,
    Local,
    Static,
}

/// A unit, as far as it is read: the items that are whole, what stands in front of the item that is read, and this;
/// the names of its blocks; how many static objects there are; how many braces are open, how many brackets of the
/// other kinds, and how many of all kinds in a declaration; and what the next token stands in.
#[derive(Drop)]
pub struct State {
    pub out: Items<Lexeme>,
    pub front: Items<Lexeme>,
    pub item: Items<Lexeme>,
    pub names: Names,
    pub count: usize,
    pub blocks: usize,
    pub parens: usize,
    pub depth: usize,
    pub mode: Mode,
    pub stage: Stage,
}

impl State {
    /// Before the first token of a unit. It takes no memory.
    pub fn beginning(alloc: Global) -> State
        ensures { result ≡ states.beginning }
    {
        State {
            out: Items::new(alloc),
            front: Items::new(alloc),
            item: Items::new(alloc),
            names: Names::new(alloc),
            count: 0,
            blocks: 0,
            parens: 0,
            depth: 0,
            mode: Mode::Code,
            stage: Stage::Name,
        }
    }

    /// Puts a token behind the item that is read. Want of memory is the only error, here and below.
    pub fn to_item(&mut self, token: Lexeme) -> Result<(), AllocError>
        ensures { OnOk result (self.new ≡ states.to_item (token ∷ []) self.old) }
    {
        self.item.push(token)
    }

    /// Puts a token in front of it.
    pub fn to_front(&mut self, token: Lexeme) -> Result<(), AllocError>
        ensures { OnOk result (self.new ≡ states.to_front (token ∷ []) self.old) }
    {
        self.front.push(token)
    }

    /// Puts `static`, which the grammar refuses.
    pub fn refuse(&mut self, at: u32) -> Result<(), AllocError>
        ensures { OnOk result (self.new ≡ states.refused at self.old) }
    {
        self.item.push(Lexeme {
            offset: at,
            form: Form::Key(Key::Static),
        })
    }

    /// Begins a declaration.
    pub fn declare(&mut self, mode: Mode)
        ensures { self.new ≡ states.declaring mode self.old }
    {
        self.mode = mode;
        self.stage = Stage::Name;
        self.depth = 0;
    }

    /// Ends a declaration.
    pub fn end(&mut self)
        ensures { self.new ≡ states.ended self.old }
    {
        self.mode = Mode::Code;
    }

    /// Goes past a token within a declaration.
    pub fn go_on(&mut self, form: &Form)
        requires few { self.old.depth < 18446744073709551615 }
        ensures { self.new ≡ states.going_on form.now self.old }
    {
        self.stage = stage_past(self.depth, self.stage, form);
        self.depth = depth_past(form, self.depth);
    }
}
