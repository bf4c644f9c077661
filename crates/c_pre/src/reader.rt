//! Reading raw tokens, one after another.

ghost use Rattle.std.specs.Prelude.{◌≡◌, if◌then◌else◌, None, Ok, IfOk, IfErr};
ghost use Rattle.c_tree.specs.Limits.{most_tokens};
ghost use Rattle.c_pre.specs.Groups.{is_read};
ghost use Rattle.c_pre.specs.Headers as headers;
ghost use Rattle.c_pre.specs.Lines as lines;
ghost use Rattle.c_pre.specs.Programs as programs;
ghost use Rattle.c_pre.specs.Said as said;
ghost use Rattle.c_pre.specs.inside.Gives.{Gives, Refuses};

use crate::fault::PreFault;
use crate::groups::Groups;
use crate::headers::{gives_types, names_of};
use crate::macros::Macro;
use crate::output::Output;
use crate::replace::replace;
use crate::said::{Said, said_by};
use base::Items;
use c_lex::{DirectiveKind, Header};
use c_library::{form_copied, is_served, token_copied};
use c_tree::{Key, Lexeme};
use std::alloc::Global;

/// A directive's line: where its `#` stands, and the tokens behind the directive so far.
#[derive(Debug, Drop)]
pub struct Line {
    pub directive: DirectiveKind,
    pub offset: u32,
    pub tokens: Items<Lexeme>,
}

/// What was read so far: what names are, the groups that are open, the line of a directive that is not ended, and the
/// tokens that were given.
#[derive(Drop)]
pub struct Reader {
    pub macros: Items<Macro>,
    pub groups: Groups,
    pub line: Option<Line>,
    pub output: Output,
}

impl Reader {
    /// Gives what a token of the program comes to.
    fn give(&mut self, alloc: Global, token: &Lexeme) -> Result<(), PreFault>
        ensures { Gives (programs.given most_tokens token.now self.old) result self.new }
    {
        let mut hidden = Items::new(alloc);
        let depth = self.macros.len();
        replace(
            alloc,
            self.macros.as_slice(),
            token.offset,
            depth,
            &mut hidden,
            &token.form,
            &mut self.output,
        )?;
        Ok(())
    }

    /// Makes the constants of a header known, at the place of its line.
    fn include_names(&mut self, alloc: Global, offset: u32, header: Header) -> Result<(), PreFault>
        ensures { Gives (lines.included offset (headers.names_of header) self.old) result self.new }
    {
        self.include(alloc, offset, names_of(header))
    }

    /// Makes `bool` the keyword `_Bool`, if the header is `<stdbool.h>`.
    fn include_bool(&mut self, alloc: Global, offset: u32, header: Header) -> Result<(), PreFault>
        ensures { Gives (lines.with_bool offset header self.old) result self.new }
    {
        match header {
            Header::Stdbool => self.name_key(alloc, offset, b"bool", Key::Bool),
            _ => Ok(()),
        }
    }

    /// Makes the names of a header known, at the place of its line.
    #[tactic(auto, unfolding(crate::specs::Lines::header_read))]
    fn include_header(&mut self, alloc: Global, offset: u32, header: Header) -> Result<(), PreFault>
        ensures { Gives (lines.header_read offset header self.old) result self.new }
    {
        self.include_names(alloc, offset, header)?;
        self.include_bool(alloc, offset, header)
    }

    /// Keeps a header's token, if it stays.
    fn keep(&mut self, alloc: Global, token: &Lexeme, header: Header) -> Result<(), PreFault>
        ensures { Gives (programs.kept most_tokens (programs.stays token.now header) token.now self.old)
            result self.new }
    {
        if is_served(&token.form) || gives_types(header) {
            self.output
                .put(token.offset, form_copied(alloc, &token.form)?)
        } else {
            Ok(())
        }
    }

    /// Keeps a header's token, if it stays, and makes its names known.
    fn give_header(&mut self, alloc: Global, token: &Lexeme, header: Header) -> Result<(), PreFault>
        ensures { Gives (programs.header_given most_tokens token.now header self.old) result self.new }
    {
        self.keep(alloc, token, header)?;
        self.include_header(alloc, token.offset, header)
    }

    /// Reads the line of a header, where lines are read.
    fn read_header(&mut self, alloc: Global, token: &Lexeme, header: Header) -> Result<(), PreFault>
        ensures { Gives (if is_read self.old.groups
            then programs.header_given most_tokens token.now header self.old else Ok self.old) result self.new }
    {
        if self.groups.is_read() {
            self.give_header(alloc, token, header)
        } else {
            Ok(())
        }
    }

    /// Reads a raw token that says this and is in no directive's line.
    fn read_said(&mut self, alloc: Global, said: Said, token: &Lexeme) -> Result<(), PreFault>
        ensures { Gives (programs.read_plain most_tokens said token.now self.old) result self.new }
    {
        match said {
            Said::Token => {
                if self.groups.is_read() {
                    self.give(alloc, token)
                } else {
                    Ok(())
                }
            }
            Said::Directive(directive) => {
                self.line = Some(Line {
                    directive,
                    offset: token.offset,
                    tokens: Items::new(alloc),
                });
                Ok(())
            }
            Said::Header(header) => self.read_header(alloc, token, header),
            Said::LineEnd => Ok(()),
        }
    }

    /// Reads a raw token that is in no directive's line.
    fn read_plain(&mut self, alloc: Global, token: &Lexeme) -> Result<(), PreFault>
        ensures { Gives (programs.read_plain most_tokens (said.said_by token.now.form) token.now self.old)
            result self.new }
    {
        let said = said_by(&token.form);
        self.read_said(alloc, said, token)
    }

    /// Reads a raw token that is in this line of a directive.
    fn read_in_line(&mut self, alloc: Global, line: Line, token: &Lexeme) -> Result<(), PreFault>
        ensures { Gives (programs.read_in_line (said.said_by token.now.form) line token.now self.old)
            result self.new }
    {
        match said_by(&token.form) {
            Said::LineEnd => self.obey(alloc, line.directive, line.offset, line.tokens.as_slice()),
            Said::Token => {
                let Line {
                    directive,
                    offset,
                    mut tokens,
                } = line;
                tokens.push(token_copied(alloc, token)?)?;
                self.line = Some(Line {
                    directive,
                    offset,
                    tokens,
                });
                Ok(())
            }
            _ => Err(PreFault::BadDefine(token.offset)),
        }
    }

    /// Reads a raw token.
    fn read_token(&mut self, alloc: Global, token: &Lexeme) -> Result<(), PreFault>
        ensures { Gives (programs.read_token most_tokens token.now self.old) result self.new }
    {
        match self.line.take() {
            None => self.read_plain(alloc, token),
            Some(line) => self.read_in_line(alloc, line, token),
        }
    }

    /// Reads raw tokens, one after another.
    fn read_all(&mut self, alloc: Global, raw: &[Lexeme]) -> Result<(), PreFault>
        ensures { Gives (programs.read_all most_tokens raw.now self.old) result self.new }
    {
        let mut rest = raw;
        while let [token, more @ ..] = rest {
            self.read_token(alloc, token)?;
            rest = more;
        }
        Ok(())
    }

    /// Ends the line of a directive, if there is one.
    fn end_line(&mut self, alloc: Global) -> Result<(), PreFault>
        ensures { Gives (programs.line_ended self.old.line (programs.in_line None self.old)) result self.new }
    {
        match self.line.take() {
            None => Ok(()),
            Some(line) => self.obey(alloc, line.directive, line.offset, line.tokens.as_slice()),
        }
    }
}

/// The tokens at the end of the text.
fn end(alloc: Global, reader: Reader) -> Result<Vec<Lexeme>, PreFault>
    ensures ok { IfOk result (λ tokens. programs.ended reader ≡ Ok tokens.items) }
    ensures err { IfErr result (Refuses (programs.ended reader)) }
{
    let mut reader = reader;
    reader.end_line(alloc)?;
    let Reader {
        macros,
        mut groups,
        line,
        output,
    } = reader;
    drop(macros);
    drop(line);
    match groups.pop() {
        None => Ok(output.tokens.into_vec()),
        Some(group) => Err(PreFault::Unbalanced(group.offset)),
    }
}

/// The tokens that raw tokens come to behind their directives.
pub fn read(alloc: Global, raw: &[Lexeme]) -> Result<Vec<Lexeme>, PreFault>
    ensures ok { IfOk result (λ tokens. programs.directed most_tokens raw.now ≡ Ok tokens.items) }
    ensures err { IfErr result (Refuses (programs.directed most_tokens raw.now)) }
{
    let mut reader = Reader {
        macros: Items::new(alloc),
        groups: Groups::new(alloc),
        line: None,
        output: Output {
            tokens: Items::new(alloc),
            count: 0,
        },
    };
    reader.read_all(alloc, raw)?;
    end(alloc, reader)
}
