//! The lines of directives.

ghost use Rattle.std.specs.Prelude.{◌≡◌, [], ◌∷◌, map, IfOk, Ok};
ghost use Rattle.std.specs.Option.{option_copied};
ghost use Rattle.c_tree.specs.declared.Form.TheVariants as form;
ghost use Rattle.c_pre.specs.Lines as lines;
ghost use Rattle.c_pre.specs.inside.Gives.{Gives};

use crate::fault::PreFault;
use crate::form::same_forms;
use crate::groups::Group;
use crate::macros::{Macro, body_of, name_of};
use crate::reader::Reader;
use base::Items;
use c_lex::DirectiveKind;
use c_library::form_copied;
use c_tree::{Form, Key, Kind, Lexeme, Word};
use std::alloc::{AllocError, Global};

/// The name that is all of a line behind its directive.
fn lone_name(tokens: &[Lexeme]) -> Option<&Word>
    ensures { option_copied result ≡ lines.lone_name tokens.now }
{
    match tokens {
        [token] => name_of(&token.form),
        _ => None,
    }
}

/// Does no token begin at this place?
fn is_apart(behind: u64, tokens: &[Lexeme]) -> bool
    ensures { result ≡ lines.is_apart behind tokens.now }
{
    match tokens {
        [] => true,
        [token, ..] => u64::from(token.offset) != behind,
    }
}

/// The forms of tokens. Want of memory is the only error.
fn forms_of(alloc: Global, tokens: &[Lexeme]) -> Result<Items<Form>, AllocError>
    ensures ok { IfOk result (λ forms. forms ≡ map (λ t. t.form) tokens.now) }
{
    let mut forms = Items::new(alloc);
    let mut rest = tokens;
    while let [token, more @ ..] = rest {
        forms.push(form_copied(alloc, &token.form)?)?;
        rest = more;
    }
    Ok(forms)
}

impl Reader {
    /// Adds what a name is from now on.
    fn say(&mut self, alloc: Global, name: &[u8], body: Option<Items<Form>>) -> Result<(), PreFault>
        ensures { Gives (Ok (lines.with_macro name.now body self.old)) result self.new }
    {
        let name = Word::from_slice(alloc, name)?;
        self.macros.push(Macro { name, body })?;
        Ok(())
    }

    /// Makes a name, at this place, a macro with this body.
    fn name(
        &mut self,
        alloc: Global,
        at: u32,
        name: &[u8],
        body: Items<Form>,
    ) -> Result<(), PreFault>
        ensures { Gives (lines.named at name.now body self.old) result self.new }
    {
        match body_of(self.macros.as_slice(), name) {
            None => self.say(alloc, name, Some(body)),
            Some(old) => {
                if same_forms(old.as_slice(), body.as_slice()) {
                    Ok(())
                } else {
                    Err(PreFault::Redefined(at))
                }
            }
        }
    }

    /// Defines a macro by the tokens of its line, at this place.
    fn define(&mut self, alloc: Global, offset: u32, tokens: &[Lexeme]) -> Result<(), PreFault>
        ensures { Gives (lines.defined offset tokens.now self.old) result self.new }
    {
        match tokens {
            [] => Err(PreFault::BadDefine(offset)),
            [first, rest @ ..] => match name_of(&first.form) {
                None => Err(PreFault::BadDefine(offset)),
                Some(name) => {
                    let name = name.as_slice();
                    if is_apart(u64::from(first.offset) + name.len() as u64, rest) {
                        let body = forms_of(alloc, rest)?;
                        self.name(alloc, first.offset, name, body)
                    } else {
                        Err(PreFault::BadDefine(offset))
                    }
                }
            },
        }
    }

    /// Forgets the macro whose name is all of the line.
    fn undefine(&mut self, alloc: Global, offset: u32, tokens: &[Lexeme]) -> Result<(), PreFault>
        ensures { Gives (lines.undefined offset (lines.lone_name tokens.now) self.old) result self.new }
    {
        match lone_name(tokens) {
            None => Err(PreFault::BadDefine(offset)),
            Some(name) => self.say(alloc, name.as_slice(), None),
        }
    }

    /// Makes the names of a header known, at the place of its line.
    pub fn include(
        &mut self,
        alloc: Global,
        offset: u32,
        names: &[(&[u8], u64, Kind)],
    ) -> Result<(), PreFault>
        ensures { Gives (lines.included offset (map (λ row. (row.0.now, row.1, row.2)) names.now) self.old)
            result self.new }
    {
        let mut rest = names;
        while let [row, more @ ..] = rest {
            let mut body = Items::new(alloc);
            body.push(Form::Number {
                value: row.1,
                kind: row.2,
            })?;
            self.name(alloc, offset, row.0, body)?;
            rest = more;
        }
        Ok(())
    }

    /// Gives a name this keyword as its body, at this place.
    pub fn name_key(
        &mut self,
        alloc: Global,
        offset: u32,
        name: &[u8],
        key: Key,
    ) -> Result<(), PreFault>
        ensures { Gives (lines.named offset name.now (form.Key key ∷ []) self.old) result self.new }
    {
        let mut body = Items::new(alloc);
        body.push(Form::Key(key))?;
        self.name(alloc, offset, name, body)
    }

    /// Opens a group whose lines are read or not.
    fn open(&mut self, offset: u32, read: bool) -> Result<(), PreFault>
        ensures { Gives (Ok (lines.opened offset read self.old)) result self.new }
    {
        let around = self.groups.is_read();
        self.groups.push(Group {
            offset,
            around,
            read,
            is_else: false,
        })?;
        Ok(())
    }

    /// Opens the group of an `#ifdef` (wanted) or an `#ifndef`.
    fn open_at(&mut self, wanted: bool, offset: u32, tokens: &[Lexeme]) -> Result<(), PreFault>
        ensures { Gives (lines.opened_at wanted offset tokens.now self.old) result self.new }
    {
        if !self.groups.is_read() {
            return self.open(offset, false);
        }
        match lone_name(tokens) {
            None => Err(PreFault::BadDefine(offset)),
            Some(name) => {
                let is_macro = body_of(self.macros.as_slice(), name.as_slice()).is_some();
                self.open(offset, if wanted { is_macro } else { !is_macro })
            }
        }
    }

    /// Goes on behind the `#else` of the innermost group.
    fn part(&mut self, offset: u32, tokens: &[Lexeme]) -> Result<(), PreFault>
        ensures { Gives (lines.parted offset tokens.now self.old.groups self.old) result self.new }
    {
        match self.groups.pop() {
            None => Err(PreFault::Unbalanced(offset)),
            Some(group) => {
                if group.is_else {
                    return Err(PreFault::Unbalanced(offset));
                }
                if group.around && !tokens.is_empty() {
                    return Err(PreFault::BadDefine(offset));
                }
                self.groups.push(Group {
                    offset: group.offset,
                    around: group.around,
                    read: group.around && !group.read,
                    is_else: true,
                })?;
                Ok(())
            }
        }
    }

    /// Closes the innermost group.
    fn close(&mut self, offset: u32, tokens: &[Lexeme]) -> Result<(), PreFault>
        ensures { Gives (lines.closed offset tokens.now self.old.groups self.old) result self.new }
    {
        match self.groups.pop() {
            None => Err(PreFault::Unbalanced(offset)),
            Some(group) => {
                if group.around && !tokens.is_empty() {
                    Err(PreFault::BadDefine(offset))
                } else {
                    Ok(())
                }
            }
        }
    }

    /// Obeys a directive at this place, with the tokens of its line.
    pub fn obey(
        &mut self,
        alloc: Global,
        directive: DirectiveKind,
        offset: u32,
        tokens: &[Lexeme],
    ) -> Result<(), PreFault>
        ensures { Gives (lines.obeyed directive offset tokens.now self.old) result self.new }
    {
        match directive {
            DirectiveKind::Define => {
                if self.groups.is_read() {
                    self.define(alloc, offset, tokens)
                } else {
                    Ok(())
                }
            }
            DirectiveKind::Undef => {
                if self.groups.is_read() {
                    self.undefine(alloc, offset, tokens)
                } else {
                    Ok(())
                }
            }
            DirectiveKind::Ifdef => self.open_at(true, offset, tokens),
            DirectiveKind::Ifndef => self.open_at(false, offset, tokens),
            DirectiveKind::Else => self.part(offset, tokens),
            DirectiveKind::Endif => self.close(offset, tokens),
        }
    }
}
