//! Static objects of blocks, in front of their functions.

ghost use Rattle.std.specs.Prelude.{◌≡◌, ◌<◌, ◌∷◌, [], option_map, IfOk, OnOk};
ghost use Rattle.c_locals.specs.Stages as stages;
ghost use Rattle.c_locals.specs.States as states;
ghost use Rattle.c_locals.specs.Statics as statics;
ghost use Rattle.c_locals.specs.inside.Bounds.{Bounded};

use crate::brackets::is_mark;
use crate::names::{Entry, Names, object_name};
use crate::stages::{Stage, declares, ends, ends_item, is_static, is_value};
use crate::state::{Mode, State};
use crate::walk::{blocks_past, closes, is_word, parens_past};
use base::Items;
use c_library::token_copied;
use c_tree::{Form, Key, Lexeme, Mark, Word};
use std::alloc::{AllocError, Global};

impl State {
    /// Hides an object by a name that is declared anew.
    fn add_hidden(&mut self, alloc: Global, name: &[u8]) -> Result<(), AllocError>
        ensures { OnOk result (self.new ≡ states.hidden name.now self.old) }
    {
        let name = Word::from_slice(alloc, name)?;
        self.names.push(Entry {
            name,
            to: None,
            block: self.blocks,
        })
    }

    /// A name that is declared and is not static.
    fn hide(&mut self, alloc: Global, name: &[u8], token: &Lexeme) -> Result<(), AllocError>
        ensures { OnOk result (self.new ≡ statics.hides name.now token.now self.old) }
    {
        if self.names.found(name).is_some() {
            if self.parens == 0 {
                self.add_hidden(alloc, name)?;
            } else {
                self.refuse(token.offset)?;
            }
        }
        self.to_item(token_copied(alloc, token)?)
    }

    /// Goes past a token within a declaration that is not static.
    fn pass_local(&mut self, alloc: Global, token: &Lexeme) -> Result<(), AllocError>
        requires few { self.old.depth < 18446744073709551615 }
        ensures { OnOk result (self.new ≡ statics.local_past token.now self.old) }
    {
        if ends(self.depth, &token.form) {
            self.to_item(token_copied(alloc, token)?)?;
            self.end();
            return Ok(());
        }
        match declares(self.stage, &token.form) {
            None => {
                let renamed = self.names.renamed(alloc, token)?;
                self.to_item(renamed)?;
                self.go_on(&token.form);
            }
            Some(name) => {
                self.hide(alloc, name, token)?;
                self.stage = Stage::Sizes;
            }
        }
        Ok(())
    }

    /// Declares a name in the block as it was declared.
    fn keep(&mut self, alloc: Global, token: &Lexeme) -> Result<(), AllocError>
        ensures { OnOk result (self.new ≡ states.to_item (statics.kept token.now) self.old) }
    {
        let at = token.offset;
        self.item.push(Lexeme {
            offset: at,
            form: Form::Key(Key::Int),
        })?;
        self.item.push(token_copied(alloc, token)?)?;
        self.item.push(Lexeme {
            offset: at,
            form: Form::Mark(Mark::Semicolon),
        })
    }

    /// Adds the name of an object.
    fn add_object(&mut self, alloc: Global, name: &[u8], to: Word) -> Result<(), AllocError>
        requires few { self.old.count < 18446744073709551615 }
        ensures { OnOk result (self.new ≡ states.with_object name.now to self.old) }
    {
        let name = Word::from_slice(alloc, name)?;
        self.names.push(Entry {
            name,
            to: Some(to),
            block: self.blocks,
        })?;
        self.count += 1;
        Ok(())
    }

    /// A static object.
    fn add(&mut self, alloc: Global, name: &[u8], token: &Lexeme) -> Result<(), AllocError>
        requires few { self.old.count < 18446744073709551615 }
        ensures { OnOk result (self.new ≡ statics.object name.now token.now self.old) }
    {
        let to = object_name(alloc, name, self.count)?;
        self.to_front(Lexeme {
            offset: token.offset,
            form: Form::Name(to.copy(alloc)?),
        })?;
        self.keep(alloc, token)?;
        self.add_object(alloc, name, to)
    }

    /// Is the token the `(` of a function's declarator?
    fn is_function(&self, form: &Form) -> bool
        ensures { result ≡ statics.is_function self.now form.now }
    {
        is_mark(Mark::LeftParen, form) && self.depth == 0 && !is_value(self.stage)
    }

    /// Refuses that.
    fn check(&mut self, token: &Lexeme) -> Result<(), AllocError>
        ensures { OnOk result (self.new ≡ statics.checked token.now self.old) }
    {
        if self.is_function(&token.form) {
            self.refuse(token.offset)?;
        }
        Ok(())
    }

    /// Goes past a token within a static declaration, before its end.
    fn pass_declarator(&mut self, alloc: Global, token: &Lexeme) -> Result<(), AllocError>
        requires depth { self.old.depth < 18446744073709551615 }
        requires count { self.old.count < 18446744073709551615 }
        ensures { OnOk result (self.new
            ≡ statics.static_by token.now (stages.declares self.old.stage token.now.form) self.old) }
    {
        match declares(self.stage, &token.form) {
            None => {
                self.check(token)?;
                self.to_front(token_copied(alloc, token)?)?;
                self.go_on(&token.form);
            }
            Some(name) => {
                self.add(alloc, name, token)?;
                self.stage = Stage::Sizes;
            }
        }
        Ok(())
    }

    /// Goes past a token within a static declaration.
    fn pass_static(&mut self, alloc: Global, token: &Lexeme) -> Result<(), AllocError>
        requires depth { self.old.depth < 18446744073709551615 }
        requires count { self.old.count < 18446744073709551615 }
        ensures { OnOk result (self.new ≡ statics.static_past token.now self.old) }
    {
        if is_mark(Mark::Semicolon, &token.form) {
            self.to_front(token_copied(alloc, token)?)?;
            self.end();
            Ok(())
        } else if ends(self.depth, &token.form) {
            self.refuse(token.offset)?;
            self.to_item(token_copied(alloc, token)?)?;
            self.end();
            Ok(())
        } else {
            self.pass_declarator(alloc, token)
        }
    }

    /// Does a declaration with static begin?
    fn begins_static(&self, form: &Form) -> bool
        ensures { result ≡ statics.begins_static self.now form.now }
    {
        self.blocks != 0 && self.parens == 0 && is_static(form)
    }

    /// Does any other begin, or a cast?
    fn begins_local(&self, form: &Form) -> bool
        ensures { result ≡ statics.begins_local self.now form.now }
    {
        self.blocks != 0 && is_word(form)
    }

    /// Goes past a token outside of declarations.
    fn pass_code(&mut self, alloc: Global, token: &Lexeme) -> Result<(), AllocError>
        ensures { OnOk result (self.new ≡ statics.code_past token.now self.old) }
    {
        if self.begins_static(&token.form) {
            self.declare(Mode::Static);
        } else if self.begins_local(&token.form) {
            self.to_item(token_copied(alloc, token)?)?;
            self.declare(Mode::Local);
        } else {
            let renamed = self.names.renamed(alloc, token)?;
            self.to_item(renamed)?;
        }
        Ok(())
    }

    /// Goes past a token in what it stands in.
    fn pass_part(&mut self, alloc: Global, token: &Lexeme) -> Result<(), AllocError>
        requires depth { self.old.depth < 18446744073709551615 }
        requires count { self.old.count < 18446744073709551615 }
        ensures { OnOk result (self.new ≡ statics.part_past self.old.mode token.now self.old) }
    {
        match self.mode {
            Mode::Code => self.pass_code(alloc, token),
            Mode::Local => self.pass_local(alloc, token),
            Mode::Static => self.pass_static(alloc, token),
        }
    }

    /// Counts brackets, and closes the names of a block.
    fn bracket(&mut self, form: &Form)
        requires blocks { self.old.blocks < 18446744073709551615 }
        requires parens { self.old.parens < 18446744073709551615 }
        ensures { self.new ≡ statics.bracketed form.now self.old }
    {
        if is_mark(Mark::RightBrace, form) {
            self.names.close(self.blocks);
        }
        self.blocks = blocks_past(self.blocks, form);
        self.parens = parens_past(self.parens, form);
    }

    /// Ends an item, with what stands in front of it.
    fn flush(self, alloc: Global) -> Result<State, AllocError>
        ensures { IfOk result (λ s. s ≡ states.flushed self) }
    {
        let State {
            mut out,
            front,
            item,
            names,
            count,
            blocks,
            parens,
            depth,
            mode,
            stage,
        } = self;
        out.append(front)?;
        out.append(item)?;
        Ok(State {
            out,
            front: Items::new(alloc),
            item: Items::new(alloc),
            names,
            count,
            blocks,
            parens,
            depth,
            mode,
            stage,
        })
    }

    /// Goes past a token in what it stands in, and opens and closes no brackets.
    #[tactic(auto, using(crate::proofs::StateBounds::on_blocks, crate::proofs::StateBounds::on_parens))]
    fn pass_within(&mut self, alloc: Global, token: &Lexeme) -> Result<(), AllocError>
        requires depth { self.old.depth < 18446744073709551615 }
        requires count { self.old.count < 18446744073709551615 }
        ensures value { OnOk result (self.new ≡ statics.part_past self.old.mode token.now self.old) }
        ensures blocks { OnOk result (self.new.blocks ≡ self.old.blocks) }
        ensures parens { OnOk result (self.new.parens ≡ self.old.parens) }
    {
        self.pass_part(alloc, token)
    }

    /// Goes past a token.
    fn pass_token(self, alloc: Global, token: &Lexeme) -> Result<State, AllocError>
        requires depth { self.depth < 18446744073709551615 }
        requires count { self.count < 18446744073709551615 }
        requires blocks { self.blocks < 18446744073709551615 }
        requires parens { self.parens < 18446744073709551615 }
        ensures { IfOk result (λ s. s ≡ statics.past token.now self) }
    {
        let mut state = self;
        state.pass_within(alloc, token)?;
        state.bracket(&token.form);
        if ends_item(state.blocks, &token.form) {
            state.flush(alloc)
        } else {
            Ok(state)
        }
    }

    /// Goes past a token, which adds one at most to each number.
    #[tactic(auto, using(crate::proofs::StateBounds::if_bounded))]
    fn pass(self, alloc: Global, token: &Lexeme) -> Result<State, AllocError>
        requires depth { self.depth < 18446744073709551615 }
        requires count { self.count < 18446744073709551615 }
        requires blocks { self.blocks < 18446744073709551615 }
        requires parens { self.parens < 18446744073709551615 }
        ensures value { IfOk result (λ s. s ≡ statics.past token.now self) }
        ensures few { IfOk result (λ s. Bounded self s) }
    {
        self.pass_token(alloc, token)
    }

    /// All tokens.
    fn finish(self) -> Result<Items<Lexeme>, AllocError>
        ensures { IfOk result (λ out. out ≡ statics.run self []) }
    {
        let State {
            mut out,
            front,
            item,
            ..
        } = self;
        out.append(front)?;
        out.append(item)?;
        Ok(out)
    }
}

/// The unit in which no object of a block is static. Want of memory is the only error.
pub fn with_statics(alloc: Global, tokens: &[Lexeme]) -> Result<Items<Lexeme>, AllocError>
    ensures { IfOk result (λ out. out ≡ statics.with_statics tokens.now) }
{
    let size = tokens.len();
    let mut state = State::beginning(alloc);
    let mut rest = tokens;
    while let [token, more @ ..] = rest {
        state = state.pass(alloc, token)?;
        rest = more;
    }
    state.finish()
}
