//! Statements and local declarations (C17 6.7, 6.8).

ghost use Rattle.std.specs.Prelude.{◌≡◌, Some, None, length, [], ◌∷◌};
ghost use Rattle.c_grammar.specs.inside.Parsing as parsing;
ghost use Rattle.c_grammar.specs.Statements as grammar;
ghost use Rattle.c_grammar.specs.inside.ModelExpressions.{inside};
ghost use Rattle.c_grammar.specs.inside.ModelStatements as model;
ghost use Rattle.c_grammar.specs.inside.ModelBegins as begins;
ghost use Rattle.c_grammar.specs.inside.ModelEntries as entry_model;
ghost use Rattle.c_tree.specs.declared.token.Key.TheVariants as keys;
ghost use Rattle.c_tree.specs.declared.tree.StmtNode.TheVariants as nodes;
ghost use Rattle.c_parse.specs.inside.Reads.{Reads, Puts};

use crate::build;
use crate::fault::Stopped;
use crate::held::Held;
use crate::parser::Parser;
use base::{Boxed, Items};
use c_tree::{Expr, Form, Key, Mark, Stmt, StmtNode};

impl Parser<'_> {
    /// Can a statement begin with the first token?
    pub fn begins_statement(&self) -> bool
        ensures { result ≡ parsing.first begins.begins_statement self.now.rest.now }
    {
        match self.rest {
            [] => false,
            [lexeme, ..] => begins_with(&lexeme.form),
        }
    }

    /// A statement inside another one.
    #[cycle(statement)]
    #[inline(always)]
    pub fn inner(&mut self, left: u8) -> Result<Stmt, Stopped>
        ensures { Reads ((model.below_at left).inner self.old.rest.now) result self.new.rest.now }
    {
        if left == 0 {
            return self.barred();
        }
        self.statement(left - 1)
    }

    /// Where no more depths may be opened.
    fn barred(&mut self) -> Result<Stmt, Stopped>
        ensures { Reads ((model.below_at 0).inner self.old.rest.now) result self.new.rest.now }
    {
        if self.begins_statement() {
            Err(Stopped::TooDeep)
        } else {
            Err(Stopped::Syntax)
        }
    }

    /// A statement inside another one, on the heap. One that begins with a name is an expression.
    #[cycle(statement)]
    #[tactic(auto, using(crate::proofs::Nested::inner_plain))]
    fn branch(&mut self, left: u8) -> Result<Boxed<Stmt>, Stopped>
        ensures { Reads ((model.below_at left).inner self.old.rest.now) result self.new.rest.now }
    {
        if left != 0 && self.is_name() {
            let statement = self.plain_statement(left - 1)?;
            return Ok(Boxed::new(self.alloc, statement)?);
        }
        let statement = self.inner(left)?;
        Ok(Boxed::new(self.alloc, statement)?)
    }

    /// A statement, behind those that were found. Most begin with a name, and are expressions, or
    /// with `return`.
    #[cycle(statement)]
    #[tactic(auto, using(crate::proofs::Nested::inner_plain, crate::proofs::Nested::inner_return), unfolding(c_grammar::specs::inside::ModelEntries::one_of))]
    fn one(&mut self, left: u8, found: &mut Items<Stmt>) -> Result<(), Stopped>
        ensures { Puts (entry_model.one_of (inside left) (model.below_at left) self.old.rest.now)
            found.old found.new result self.new.rest.now }
    {
        if left != 0 && self.is_name() {
            let statement = self.plain_statement(left - 1)?;
            found.push(statement)?;
            return Ok(());
        }
        if left != 0 && self.is_word(Key::Return) {
            let statement = self.return_statement(left - 1)?;
            found.push(statement)?;
            return Ok(());
        }
        let statement = self.inner(left)?;
        found.push(statement)?;
        Ok(())
    }

    /// A statement, or the declarators of a declaration, behind those that were found.
    #[cycle(statement)]
    #[tactic(auto, unfolding(c_grammar::specs::inside::ModelEntries::entry_of))]
    fn entry(&mut self, left: u8, found: &mut Items<Stmt>) -> Result<(), Stopped>
        ensures { Puts (entry_model.entry_of (inside left) (model.below_at left) self.old.rest.now)
            found.old found.new result self.new.rest.now }
    {
        if self.begins_type() {
            return self.locals_inside(left, found);
        }
        self.one(left, found)
    }

    /// Entries up to the closing brace.
    #[cycle(statement)]
    fn entries(&mut self, left: u8) -> Result<Items<Stmt>, Stopped>
        ensures { Reads (entry_model.entries_of (inside left) (model.below_at left) self.old.rest.now)
            result self.new.rest.now }
    {
        let mut found = Items::new(self.alloc);
        let turns = self.rest.len() + 1;
        for _turn in 0..turns {
            if self.is_next(Mark::RightBrace) {
                self.advance();
                return Ok(found);
            }
            self.entry(left, &mut found)?;
        }
        Err(Stopped::Syntax)
    }

    #[cycle(statement)]
    #[tactic(auto, unfolding(c_grammar::specs::inside::ModelStatements::compound_of))]
    pub fn compound(&mut self, left: u8) -> Result<Stmt, Stopped>
        ensures { Reads (model.compound_of (inside left) (model.below_at left) self.old.rest.now)
            result self.new.rest.now }
    {
        let offset = self.expect(Mark::LeftBrace)?;
        let entries = self.entries(left)?;
        Ok(Stmt {
            offset,
            node: StmtNode::Compound(entries),
        })
    }

    #[cycle(statement)]
    #[tactic(auto, unfolding(c_grammar::specs::inside::ModelStatements::else_of))]
    fn with_else(
        &mut self,
        left: u8,
        offset: u32,
        test: Boxed<Expr>,
        yes: Boxed<Stmt>,
    ) -> Result<Stmt, Stopped>
        ensures { Reads (model.else_of (inside left) (model.below_at left) offset test yes
            self.old.rest.now) result self.new.rest.now }
    {
        self.expect_keyword(Key::Else)?;
        let no = self.branch(left)?;
        Ok(build::if_else(offset, test, yes, no))
    }

    #[cycle(statement)]
    #[tactic(auto, unfolding(c_grammar::specs::inside::ModelStatements::no_of))]
    fn after_if(
        &mut self,
        left: u8,
        offset: u32,
        test: Boxed<Expr>,
        yes: Boxed<Stmt>,
    ) -> Result<Stmt, Stopped>
        ensures { Reads (model.no_of (inside left) (model.below_at left) offset test yes
            self.old.rest.now) result self.new.rest.now }
    {
        if self.is_word(Key::Else) {
            return self.with_else(left, offset, test, yes);
        }
        Ok(build::if_only(offset, test, yes))
    }

    #[cycle(statement)]
    #[tactic(auto, unfolding(c_grammar::specs::inside::ModelStatements::if_of))]
    fn if_statement(&mut self, left: u8) -> Result<Stmt, Stopped>
        ensures { Reads (model.if_of (inside left) (model.below_at left) self.old.rest.now) result
            self.new.rest.now }
    {
        let offset = self.expect_keyword(Key::If)?;
        let test = self.test(left)?;
        let yes = self.branch(left)?;
        self.after_if(left, offset, test, yes)
    }

    #[cycle(statement)]
    #[tactic(auto, unfolding(c_grammar::specs::inside::ModelStatements::while_of))]
    fn while_statement(&mut self, left: u8) -> Result<Stmt, Stopped>
        ensures { Reads (model.while_of (inside left) (model.below_at left) self.old.rest.now)
            result self.new.rest.now }
    {
        let offset = self.expect_keyword(Key::While)?;
        let test = self.test(left)?;
        let body = self.branch(left)?;
        Ok(build::while_loop(offset, test, body))
    }

    #[cycle(statement)]
    #[tactic(auto, unfolding(c_grammar::specs::inside::ModelStatements::do_of))]
    fn do_statement(&mut self, left: u8) -> Result<Stmt, Stopped>
        ensures { Reads (model.do_of (inside left) (model.below_at left) self.old.rest.now) result
            self.new.rest.now }
    {
        let offset = self.expect_keyword(Key::Do)?;
        let body = self.branch(left)?;
        self.expect_keyword(Key::While)?;
        let test = self.test(left)?;
        self.expect(Mark::Semicolon)?;
        Ok(build::do_loop(offset, body, test))
    }

    #[cycle(statement)]
    #[tactic(auto, unfolding(c_grammar::specs::inside::ModelStatements::for_of))]
    fn for_statement(&mut self, left: u8) -> Result<Stmt, Stopped>
        ensures { Reads (model.for_of (inside left) (model.below_at left) self.old.rest.now) result
            self.new.rest.now }
    {
        let offset = self.expect_keyword(Key::For)?;
        self.expect(Mark::LeftParen)?;
        let init = Held::new(self.init(left)?);
        let test = Held::new(self.until_semicolon(left)?);
        let post = Held::new(self.until_paren(left)?);
        let body = self.branch(left)?;
        Ok(build::for_loop(offset, init, test, post, body))
    }

    #[tactic(auto, unfolding(c_grammar::specs::inside::ModelStatements::leave_of))]
    fn break_statement(&mut self, left: u8) -> Result<Stmt, Stopped>
        ensures { Reads (model.leave_of (inside left) (model.below_at left) keys.Break nodes.Break
            self.old.rest.now) result self.new.rest.now }
    {
        let offset = self.expect_keyword(Key::Break)?;
        self.expect(Mark::Semicolon)?;
        let _unused = left;
        Ok(Stmt {
            offset,
            node: StmtNode::Break,
        })
    }

    #[tactic(auto, unfolding(c_grammar::specs::inside::ModelStatements::leave_of))]
    fn continue_statement(&mut self, left: u8) -> Result<Stmt, Stopped>
        ensures { Reads (model.leave_of (inside left) (model.below_at left) keys.Continue
            nodes.Continue self.old.rest.now) result self.new.rest.now }
    {
        let offset = self.expect_keyword(Key::Continue)?;
        self.expect(Mark::Semicolon)?;
        let _unused = left;
        Ok(Stmt {
            offset,
            node: StmtNode::Continue,
        })
    }

    #[inline(always)]
    #[tactic(auto, unfolding(c_grammar::specs::inside::ModelStatements::return_of))]
    fn return_statement(&mut self, left: u8) -> Result<Stmt, Stopped>
        ensures { Reads (model.return_of (inside left) (model.below_at left) self.old.rest.now)
            result self.new.rest.now }
    {
        let offset = self.expect_keyword(Key::Return)?;
        let value = self.until_semicolon(left)?;
        Ok(Stmt {
            offset,
            node: StmtNode::Return(value),
        })
    }

    #[tactic(auto, unfolding(c_grammar::specs::inside::ModelStatements::empty_of))]
    fn empty(&mut self, left: u8) -> Result<Stmt, Stopped>
        ensures { Reads (model.empty_of (inside left) (model.below_at left) self.old.rest.now)
            result self.new.rest.now }
    {
        let offset = self.expect(Mark::Semicolon)?;
        let _unused = left;
        Ok(Stmt {
            offset,
            node: StmtNode::Plain(None),
        })
    }

    #[inline(always)]
    #[tactic(auto, unfolding(c_grammar::specs::inside::ModelStatements::plain_of))]
    fn plain_statement(&mut self, left: u8) -> Result<Stmt, Stopped>
        ensures { Reads (model.plain_of (inside left) (model.below_at left) self.old.rest.now)
            result self.new.rest.now }
    {
        let e = self.expression(left)?;
        self.expect(Mark::Semicolon)?;
        let offset = e.get().offset;
        Ok(Stmt {
            offset,
            node: StmtNode::Plain(Some(e)),
        })
    }

    #[tactic(auto, unfolding(c_grammar::specs::inside::ModelStatements::simple_of))]
    fn simple(&mut self, left: u8) -> Result<Stmt, Stopped>
        ensures { Reads (model.simple_of (inside left) (model.below_at left) self.old.rest.now)
            result self.new.rest.now }
    {
        if self.is_word(Key::Return) {
            return self.return_statement(left);
        }
        if self.is_word(Key::Break) {
            return self.break_statement(left);
        }
        if self.is_word(Key::Continue) {
            return self.continue_statement(left);
        }
        if self.is_next(Mark::Semicolon) {
            return self.empty(left);
        }
        self.plain_statement(left)
    }

    #[cycle(statement)]
    #[tactic(auto, unfolding(c_grammar::specs::inside::ModelStatements::stmt_of))]
    fn statement(&mut self, left: u8) -> Result<Stmt, Stopped>
        ensures { Reads (model.stmt_of (inside left) (model.below_at left) self.old.rest.now) result
            self.new.rest.now }
    {
        if self.is_next(Mark::LeftBrace) {
            return self.compound(left);
        }
        if self.is_word(Key::If) {
            return self.if_statement(left);
        }
        if self.is_word(Key::While) {
            return self.while_statement(left);
        }
        if self.is_word(Key::Do) {
            return self.do_statement(left);
        }
        if self.is_word(Key::For) {
            return self.for_statement(left);
        }
        if self.is_word(Key::Switch) {
            return self.switch_statement(left);
        }
        self.simple(left)
    }
}

fn begins_with(form: &Form) -> bool
    ensures { result ≡ begins.begins_statement form.now }
{
    match form {
        Form::Name(_) | Form::Number { .. } => true,
        Form::Key(key) => matches!(
            key,
            Key::If
                | Key::While
                | Key::Do
                | Key::For
                | Key::Switch
                | Key::Break
                | Key::Continue
                | Key::Return
        ),
        Form::Mark(mark) => matches!(
            mark,
            Mark::LeftBrace
                | Mark::Semicolon
                | Mark::LeftParen
                | Mark::Plus
                | Mark::Minus
                | Mark::Tilde
                | Mark::Not
                | Mark::PlusPlus
                | Mark::MinusMinus
        ),
        Form::Include => false,
    }
}
