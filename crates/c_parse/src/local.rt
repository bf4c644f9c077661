//! Conditions, expressions that may be absent, local declarations (C17 6.7), and the first part of a `for`
//! (C17 6.8.5.3).

ghost use Rattle.std.specs.Prelude.{◌≡◌};
ghost use Rattle.c_grammar.specs.Statements as grammar;
ghost use Rattle.c_grammar.specs.inside.ModelExpressions.{inside};
ghost use Rattle.c_grammar.specs.inside.ModelStatements as model;
ghost use Rattle.c_grammar.specs.inside.ModelConditions as conditions;
ghost use Rattle.c_grammar.specs.inside.ModelLocals as local_model;
ghost use Rattle.c_grammar.specs.inside.ModelEntries as entry_model;
ghost use Rattle.c_parse.specs.inside.Reads.{Reads, Puts};

use crate::build;
use crate::fault::Stopped;
use crate::parser::Parser;
use base::{Boxed, Items};
use c_tree::{ArraySize, Expr, ForInit, Kind, Mark, Stmt, StmtNode};

impl Parser<'_> {
    #[inline(always)]
    #[tactic(auto, unfolding(c_grammar::specs::inside::ModelConditions::absent_of, c_grammar::specs::inside::ModelConditions::given_of, c_grammar::specs::inside::ModelConditions::until_of))]
    pub fn until_semicolon(&mut self, left: u8) -> Result<Option<Boxed<Expr>>, Stopped>
        ensures { Reads (conditions.until_of (inside left) grammar.semicolon self.old.rest.now) result
            self.new.rest.now }
    {
        if self.is_next(Mark::Semicolon) {
            self.expect(Mark::Semicolon)?;
            return Ok(None);
        }
        let e = self.expression(left)?;
        self.expect(Mark::Semicolon)?;
        Ok(Some(e))
    }

    #[inline(always)]
    #[tactic(auto, unfolding(c_grammar::specs::inside::ModelConditions::absent_of, c_grammar::specs::inside::ModelConditions::given_of, c_grammar::specs::inside::ModelConditions::until_of))]
    pub fn until_paren(&mut self, left: u8) -> Result<Option<Boxed<Expr>>, Stopped>
        ensures { Reads (conditions.until_of (inside left) grammar.paren self.old.rest.now) result
            self.new.rest.now }
    {
        if self.is_next(Mark::RightParen) {
            self.expect(Mark::RightParen)?;
            return Ok(None);
        }
        let e = self.expression(left)?;
        self.expect(Mark::RightParen)?;
        Ok(Some(e))
    }

    /// A condition in its parentheses.
    #[inline(always)]
    #[tactic(auto, unfolding(c_grammar::specs::inside::ModelConditions::test_of))]
    pub fn test(&mut self, left: u8) -> Result<Boxed<Expr>, Stopped>
        ensures { Reads (conditions.test_of (inside left) self.old.rest.now) result self.new.rest.now }
    {
        self.expect(Mark::LeftParen)?;
        let test = self.expression(left)?;
        self.expect(Mark::RightParen)?;
        Ok(test)
    }

    #[tactic(auto, unfolding(c_grammar::specs::inside::ModelLocals::value_of))]
    fn value(&mut self, left: u8) -> Result<(ArraySize, Option<Boxed<Expr>>), Stopped>
        ensures { Reads (local_model.value_of (inside left) self.old.rest.now) result self.new.rest.now }
    {
        self.expect(Mark::Assign)?;
        let value = self.assignment(left)?;
        Ok((ArraySize::Scalar, Some(value)))
    }

    /// A size in its brackets.
    #[tactic(auto, unfolding(c_grammar::specs::inside::ModelLocals::size_of))]
    fn local_size(&mut self, left: u8) -> Result<Boxed<Expr>, Stopped>
        ensures { Reads (local_model.size_of (inside left) self.old.rest.now) result self.new.rest.now }
    {
        self.expect(Mark::LeftBracket)?;
        let size = self.conditional(left)?;
        self.expect(Mark::RightBracket)?;
        Ok(size)
    }

    #[tactic(auto, unfolding(c_grammar::specs::inside::ModelLocals::second_of))]
    fn local_rows(
        &mut self,
        left: u8,
        rows: Boxed<Expr>,
    ) -> Result<(ArraySize, Option<Boxed<Expr>>), Stopped>
        ensures { Reads (local_model.second_of (inside left) rows self.old.rest.now) result
            self.new.rest.now }
    {
        let size = self.local_size(left)?;
        let rows = Some(rows);
        Ok((ArraySize::Rows { rows, size }, None))
    }

    /// Behind the first size of a local: a second one, or what stands behind the array.
    #[tactic(auto, unfolding(c_grammar::specs::inside::ModelLocals::after_size))]
    fn after_local_size(
        &mut self,
        left: u8,
        size: Boxed<Expr>,
    ) -> Result<(ArraySize, Option<Boxed<Expr>>), Stopped>
        ensures { Reads (local_model.after_size (inside left) size self.old.rest.now) result
            self.new.rest.now }
    {
        if self.is_next(Mark::LeftBracket) {
            return self.local_rows(left, size);
        }
        Ok((ArraySize::Sized(size), None))
    }

    #[tactic(auto, unfolding(c_grammar::specs::inside::ModelLocals::array_of))]
    fn array(&mut self, left: u8) -> Result<(ArraySize, Option<Boxed<Expr>>), Stopped>
        ensures { Reads (local_model.array_of (inside left) self.old.rest.now) result self.new.rest.now }
    {
        let size = self.local_size(left)?;
        self.after_local_size(left, size)
    }

    /// What stands behind the name of a local.
    #[tactic(auto, unfolding(c_grammar::specs::inside::ModelLocals::shape_of))]
    fn shape(&mut self, left: u8) -> Result<(ArraySize, Option<Boxed<Expr>>), Stopped>
        ensures { Reads (local_model.shape_of (inside left) self.old.rest.now) result self.new.rest.now }
    {
        if self.is_next(Mark::Assign) {
            return self.value(left);
        }
        if self.is_next(Mark::LeftBracket) {
            return self.array(left);
        }
        Ok((ArraySize::Scalar, None))
    }

    #[tactic(auto, unfolding(c_grammar::specs::inside::ModelLocals::decl_of))]
    fn declarator(&mut self, left: u8, kind: Kind) -> Result<Stmt, Stopped>
        ensures { Reads (local_model.decl_of (inside left) kind self.old.rest.now) result
            self.new.rest.now }
    {
        let (offset, name) = self.name()?;
        let (size, init) = self.shape(left)?;
        Ok(Stmt {
            offset,
            node: StmtNode::Declare {
                kind,
                name,
                size,
                init,
            },
        })
    }

    /// Declarators up to the semicolon, behind the statements that were found.
    fn declarators(&mut self, left: u8, kind: Kind, found: &mut Items<Stmt>) -> Result<(), Stopped>
        ensures { Puts (local_model.decls_of (inside left) kind self.old.rest.now) found.old found.new
            result self.new.rest.now }
    {
        let turns = self.rest.len() + 1;
        for _turn in 0..turns {
            let declarator = self.declarator(left, kind)?;
            found.push(declarator)?;
            if self.is_next(Mark::Comma) {
                self.advance();
            } else {
                self.expect(Mark::Semicolon)?;
                return Ok(());
            }
        }
        Err(Stopped::Syntax)
    }

    #[tactic(auto, unfolding(c_grammar::specs::inside::ModelLocals::locals_of))]
    fn locals(&mut self, left: u8, found: &mut Items<Stmt>) -> Result<(), Stopped>
        ensures { Puts (local_model.locals_of (inside left) self.old.rest.now) found.old found.new result
            self.new.rest.now }
    {
        let (_, kind) = self.type_name()?;
        self.declarators(left, kind, found)
    }

    /// A declaration inside a statement, behind the statements that were found.
    pub fn locals_inside(&mut self, left: u8, found: &mut Items<Stmt>) -> Result<(), Stopped>
        ensures { Puts ((model.below_at left).locals self.old.rest.now) found.old found.new result
            self.new.rest.now }
    {
        if left == 0 {
            return self.no_locals(found);
        }
        self.locals(left - 1, found)
    }

    fn no_locals(&mut self, found: &mut Items<Stmt>) -> Result<(), Stopped>
        ensures { Puts ((model.below_at 0).locals self.old.rest.now) found.old found.new result
            self.new.rest.now }
    {
        let _unused = found;
        if self.begins_type() {
            return Err(Stopped::TooDeep);
        }
        Err(Stopped::Syntax)
    }

    #[tactic(auto, unfolding(c_grammar::specs::inside::ModelEntries::init_local_of))]
    fn init_locals(&mut self, left: u8) -> Result<ForInit, Stopped>
        ensures { Reads (entry_model.init_local_of (inside left) (model.below_at left) self.old.rest.now)
            result self.new.rest.now }
    {
        let mut locals = Items::new(self.alloc);
        self.locals_inside(left, &mut locals)?;
        Ok(ForInit::Locals(locals))
    }

    #[tactic(auto, unfolding(c_grammar::specs::inside::ModelEntries::init_plain_of))]
    fn init_plain(&mut self, left: u8) -> Result<ForInit, Stopped>
        ensures { Reads (entry_model.init_plain_of (inside left) (model.below_at left) self.old.rest.now)
            result self.new.rest.now }
    {
        let given = self.until_semicolon(left)?;
        Ok(build::for_init(given))
    }

    /// The first part of a `for`, with its semicolon.
    #[tactic(auto, unfolding(c_grammar::specs::inside::ModelEntries::init_of))]
    pub fn init(&mut self, left: u8) -> Result<ForInit, Stopped>
        ensures { Reads (entry_model.init_of (inside left) (model.below_at left) self.old.rest.now) result
            self.new.rest.now }
    {
        if self.begins_type() {
            return self.init_locals(left);
        }
        self.init_plain(left)
    }
}
