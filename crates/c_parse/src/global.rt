//! Globals (C17 6.7, 6.9.2), which stand at depth 0.

ghost use Rattle.std.specs.Prelude.{◌≡◌};
ghost use Rattle.c_grammar.specs.inside.ModelExpressions.{inside};
ghost use Rattle.c_grammar.specs.inside.ModelSizes as sizes;
ghost use Rattle.c_grammar.specs.inside.ModelGlobals as global_model;
ghost use Rattle.c_parse.specs.inside.Reads.{Reads, Puts};
ghost use Rattle.c_parse.specs.inside.Lists.{global_list_of};

use crate::build;
use crate::fault::Stopped;
use crate::held::Held;
use crate::parser::Parser;
use base::{Boxed, Items};
use c_tree::{ArraySize, Expr, Kind, Mark, Top, TopNode, Word};

impl Parser<'_> {
    /// A size or none, up to the bracket.
    #[tactic(auto, unfolding(c_grammar::specs::inside::ModelSizes::no_size_of, c_grammar::specs::inside::ModelSizes::some_size_of, c_grammar::specs::inside::ModelSizes::size_of))]
    fn size(&mut self, left: u8) -> Result<Option<Boxed<Expr>>, Stopped>
        ensures { Reads (sizes.size_of (inside left) self.old.rest.now) result self.new.rest.now }
    {
        if self.is_next(Mark::RightBracket) {
            self.expect(Mark::RightBracket)?;
            return Ok(None);
        }
        let size = self.conditional(left)?;
        self.expect(Mark::RightBracket)?;
        Ok(Some(size))
    }

    /// A second size in its brackets.
    #[tactic(auto, unfolding(c_grammar::specs::inside::ModelSizes::second_of))]
    fn second_size(&mut self, left: u8) -> Result<Boxed<Expr>, Stopped>
        ensures { Reads (sizes.second_of (inside left) self.old.rest.now) result
            self.new.rest.now }
    {
        self.expect(Mark::LeftBracket)?;
        let size = self.conditional(left)?;
        self.expect(Mark::RightBracket)?;
        Ok(size)
    }

    /// A second pair of brackets.
    #[tactic(auto, unfolding(c_grammar::specs::inside::ModelSizes::two_pairs_of))]
    fn second_pair(
        &mut self,
        left: u8,
        rows: Held<Option<Boxed<Expr>>>,
    ) -> Result<ArraySize, Stopped>
        ensures { Reads (sizes.two_pairs_of (inside left) rows self.old.rest.now) result
            self.new.rest.now }
    {
        let size = self.second_size(left)?;
        let rows = rows.into_inner();
        Ok(ArraySize::Rows { rows, size })
    }

    /// Behind the first pair of brackets: a second one, or what stands behind the array.
    #[tactic(auto, unfolding(c_grammar::specs::inside::ModelSizes::after_first))]
    fn after_first(&mut self, left: u8, first: Option<Boxed<Expr>>) -> Result<ArraySize, Stopped>
        ensures { Reads (sizes.after_first (inside left) first self.old.rest.now) result
            self.new.rest.now }
    {
        if self.is_next(Mark::LeftBracket) {
            return self.second_pair(left, Held::new(first));
        }
        Ok(build::one_size(first))
    }

    /// The brackets of an array, one pair or two.
    #[tactic(auto, unfolding(c_grammar::specs::inside::ModelSizes::dimensions_of))]
    pub fn dimensions(&mut self, left: u8) -> Result<ArraySize, Stopped>
        ensures { Reads (sizes.dimensions_of (inside left) self.old.rest.now) result
            self.new.rest.now }
    {
        self.expect(Mark::LeftBracket)?;
        let first = self.size(left)?;
        self.after_first(left, first)
    }

    /// Values up to the brace, with a comma more where there is one.
    fn values(&mut self, left: u8) -> Result<Items<Boxed<Expr>>, Stopped>
        ensures { Reads (global_model.values_of (inside left) self.old.rest.now) result self.new.rest.now }
    {
        let mut found = Items::new(self.alloc);
        let turns = self.rest.len() + 1;
        for _turn in 0..turns {
            let value = self.conditional(left)?;
            found.push(value)?;
            if !self.is_next(Mark::Comma) {
                self.expect(Mark::RightBrace)?;
                return Ok(found);
            }
            self.advance();
            if self.is_next(Mark::RightBrace) {
                self.advance();
                return Ok(found);
            }
        }
        Err(Stopped::Syntax)
    }

    /// The values of an array with one size.
    #[tactic(auto, unfolding(c_grammar::specs::inside::ModelGlobals::flat_of))]
    fn flat(&mut self, left: u8) -> Result<Items<Items<Boxed<Expr>>>, Stopped>
        ensures { Reads (global_model.flat_of (inside left) self.old.rest.now) result self.new.rest.now }
    {
        let values = self.values(left)?;
        let mut found = Items::new(self.alloc);
        found.push(values)?;
        Ok(found)
    }

    /// A row of values in its braces.
    #[tactic(auto, unfolding(c_grammar::specs::inside::ModelGlobals::row_of))]
    fn row(&mut self, left: u8) -> Result<Items<Boxed<Expr>>, Stopped>
        ensures { Reads (global_model.row_of (inside left) self.old.rest.now) result self.new.rest.now }
    {
        self.expect(Mark::LeftBrace)?;
        self.values(left)
    }

    /// Rows up to the brace, with a comma more where there is one.
    fn rows(&mut self, left: u8) -> Result<Items<Items<Boxed<Expr>>>, Stopped>
        ensures { Reads (global_model.rows_of (inside left) self.old.rest.now) result self.new.rest.now }
    {
        let mut found = Items::new(self.alloc);
        let turns = self.rest.len() + 1;
        for _turn in 0..turns {
            let row = self.row(left)?;
            found.push(row)?;
            if !self.is_next(Mark::Comma) {
                self.expect(Mark::RightBrace)?;
                return Ok(found);
            }
            self.advance();
            if self.is_next(Mark::RightBrace) {
                self.advance();
                return Ok(found);
            }
        }
        Err(Stopped::Syntax)
    }

    /// A list of values behind one pair of brackets.
    #[tactic(auto, unfolding(c_grammar::specs::inside::ModelGlobals::filled_of))]
    fn filled(
        &mut self,
        left: u8,
        size: Held<ArraySize>,
    ) -> Result<(ArraySize, Items<Items<Boxed<Expr>>>), Stopped>
        ensures { Reads (global_model.filled_of (inside left) size self.old.rest.now) result
            self.new.rest.now }
    {
        self.expect(Mark::Assign)?;
        self.expect(Mark::LeftBrace)?;
        let lists = self.flat(left)?;
        Ok((size.into_inner(), lists))
    }

    /// Rows of values behind two pairs of brackets.
    #[tactic(auto, unfolding(c_grammar::specs::inside::ModelGlobals::rows_filled_of))]
    fn rows_filled(
        &mut self,
        left: u8,
        size: Held<ArraySize>,
    ) -> Result<(ArraySize, Items<Items<Boxed<Expr>>>), Stopped>
        ensures { Reads (global_model.rows_filled_of (inside left) size self.old.rest.now) result
            self.new.rest.now }
    {
        self.expect(Mark::Assign)?;
        self.expect(Mark::LeftBrace)?;
        let lists = self.rows(left)?;
        Ok((size.into_inner(), lists))
    }

    fn or_sized(
        &mut self,
        size: ArraySize,
    ) -> Result<(ArraySize, Items<Items<Boxed<Expr>>>), Stopped>
        ensures { Reads (sizes.or_sized size self.old.rest.now) result self.new.rest.now }
    {
        if has_first(&size) {
            Ok((size, Items::new(self.alloc)))
        } else {
            Err(Stopped::Syntax)
        }
    }

    #[tactic(auto, unfolding(c_grammar::specs::inside::ModelGlobals::after_size))]
    fn after_size(
        &mut self,
        left: u8,
        size: ArraySize,
    ) -> Result<(ArraySize, Items<Items<Boxed<Expr>>>), Stopped>
        ensures { Reads (global_model.after_size (inside left) size self.old.rest.now) result
            self.new.rest.now }
    {
        if self.is_next(Mark::Assign) {
            return self.filled(left, Held::new(size));
        }
        self.or_sized(size)
    }

    #[tactic(auto, unfolding(c_grammar::specs::inside::ModelGlobals::after_rows))]
    fn after_rows(
        &mut self,
        left: u8,
        size: ArraySize,
    ) -> Result<(ArraySize, Items<Items<Boxed<Expr>>>), Stopped>
        ensures { Reads (global_model.after_rows (inside left) size self.old.rest.now) result
            self.new.rest.now }
    {
        if self.is_next(Mark::Assign) {
            return self.rows_filled(left, Held::new(size));
        }
        self.or_sized(size)
    }

    #[tactic(auto, unfolding(c_grammar::specs::inside::ModelGlobals::rows_array_of))]
    fn rows_array(
        &mut self,
        left: u8,
        rows: Held<Option<Boxed<Expr>>>,
    ) -> Result<(ArraySize, Items<Items<Boxed<Expr>>>), Stopped>
        ensures { Reads (global_model.rows_array_of (inside left) rows self.old.rest.now) result
            self.new.rest.now }
    {
        let size = self.second_size(left)?;
        let rows = rows.into_inner();
        self.after_rows(left, ArraySize::Rows { rows, size })
    }

    /// Behind the first pair of brackets of a global.
    #[tactic(auto, unfolding(c_grammar::specs::inside::ModelGlobals::after_pair))]
    fn after_pair(
        &mut self,
        left: u8,
        first: Option<Boxed<Expr>>,
    ) -> Result<(ArraySize, Items<Items<Boxed<Expr>>>), Stopped>
        ensures { Reads (global_model.after_pair (inside left) first self.old.rest.now) result
            self.new.rest.now }
    {
        if self.is_next(Mark::LeftBracket) {
            return self.rows_array(left, Held::new(first));
        }
        self.after_size(left, build::one_size(first))
    }

    #[tactic(auto, unfolding(c_grammar::specs::inside::ModelGlobals::array_of))]
    fn global_array(&mut self, left: u8) -> Result<(ArraySize, Items<Items<Boxed<Expr>>>), Stopped>
        ensures { Reads (global_model.array_of (inside left) self.old.rest.now) result self.new.rest.now }
    {
        self.expect(Mark::LeftBracket)?;
        let first = self.size(left)?;
        self.after_pair(left, first)
    }

    #[tactic(auto, unfolding(c_grammar::specs::inside::ModelGlobals::valued_of))]
    fn valued(&mut self, left: u8) -> Result<(ArraySize, Items<Items<Boxed<Expr>>>), Stopped>
        ensures { Reads (global_model.valued_of (inside left) self.old.rest.now) result self.new.rest.now }
    {
        self.expect(Mark::Assign)?;
        let value = self.conditional(left)?;
        let mut values = Items::new(self.alloc);
        values.push(value)?;
        let mut lists = Items::new(self.alloc);
        lists.push(values)?;
        Ok((ArraySize::Scalar, lists))
    }

    /// What stands behind the name of a global.
    #[tactic(auto, unfolding(c_grammar::specs::inside::ModelGlobals::shape_of))]
    fn global_shape(&mut self, left: u8) -> Result<(ArraySize, Items<Items<Boxed<Expr>>>), Stopped>
        ensures { Reads (global_model.shape_of (inside left) self.old.rest.now) result self.new.rest.now }
    {
        if self.is_next(Mark::Assign) {
            return self.valued(left);
        }
        if self.is_next(Mark::LeftBracket) {
            return self.global_array(left);
        }
        Ok((ArraySize::Scalar, Items::new(self.alloc)))
    }

    #[tactic(auto, unfolding(c_grammar::specs::inside::ModelGlobals::global_of))]
    fn global(&mut self, left: u8, kind: Kind) -> Result<Top, Stopped>
        ensures { Reads (global_model.global_of (inside left) kind self.old.rest.now) result
            self.new.rest.now }
    {
        let (offset, name) = self.name()?;
        let (size, init) = self.global_shape(left)?;
        Ok(Top {
            offset,
            node: TopNode::Global {
                kind,
                name,
                size,
                init,
            },
        })
    }

    /// Globals up to the semicolon, behind the items that were found.
    fn global_list(&mut self, left: u8, kind: Kind, found: &mut Items<Top>) -> Result<(), Stopped>
        ensures { Puts (global_list_of (inside left) kind self.old.rest.now) found.old found.new
            result self.new.rest.now }
    {
        let turns = self.rest.len() + 1;
        for _turn in 0..turns {
            let global = self.global(left, kind)?;
            found.push(global)?;
            if self.is_next(Mark::Comma) {
                self.advance();
            } else {
                self.expect(Mark::Semicolon)?;
                return Ok(());
            }
        }
        Err(Stopped::Syntax)
    }

    /// A global, and those that stand behind it, behind the items that were found.
    #[tactic(auto, using(crate::proofs::Lists::globals_end))]
    fn more_globals(
        &mut self,
        left: u8,
        kind: Kind,
        first: Top,
        found: &mut Items<Top>,
    ) -> Result<(), Stopped>
        ensures { Puts (global_model.more_globals_of (inside left) kind first self.old.rest.now) found.old
            found.new result self.new.rest.now }
    {
        found.push(first)?;
        if self.is_next(Mark::Comma) {
            self.advance();
            return self.global_list(left, kind, found);
        }
        self.expect(Mark::Semicolon)?;
        Ok(())
    }

    /// Globals behind the name of the first one.
    #[tactic(auto, unfolding(c_grammar::specs::inside::ModelGlobals::globals_of))]
    pub fn globals(
        &mut self,
        left: u8,
        kind: Kind,
        offset: u32,
        name: Word,
        found: &mut Items<Top>,
    ) -> Result<(), Stopped>
        ensures { Puts (global_model.globals_of (inside left) kind offset name self.old.rest.now) found.old
            found.new result self.new.rest.now }
    {
        let (size, init) = self.global_shape(left)?;
        let first = Top {
            offset,
            node: TopNode::Global {
                kind,
                name,
                size,
                init,
            },
        };
        self.more_globals(left, kind, first, found)
    }
}

/// Has the first pair of brackets a size?
fn has_first(size: &ArraySize) -> bool
    ensures { result ≡ sizes.has_first size.now }
{
    match size {
        ArraySize::Scalar | ArraySize::Open => false,
        ArraySize::Sized(_) => true,
        ArraySize::Rows { rows, .. } => match rows {
            None => false,
            Some(_) => true,
        },
    }
}
