//! Functions and translation units (C17 6.9).

ghost use Rattle.std.specs.Prelude.{◌≡◌, ◌-◌, Some, None, [], ◌∷◌};
ghost use Rattle.c_tree.specs.Limits.{most_nesting};
ghost use Rattle.c_grammar.specs.inside.ModelExpressions.{inside};
ghost use Rattle.c_grammar.specs.inside.ModelStatements.{below_at, compound_of};
ghost use Rattle.c_grammar.specs.inside.ModelUnits as model;
ghost use Rattle.c_grammar.specs.inside.ModelParameters as parameters;
ghost use Rattle.c_grammar.specs.inside.Parsing as parsing;
ghost use Rattle.c_parse.specs.inside.Reads.{Reads, Puts};

use crate::fault::Stopped;
use crate::parser::Parser;
use base::Items;
use c_tree::{ArraySize, Form, Key, Kind, MOST_NESTING, Mark, Param, Top, TopNode, Word};

impl Parser<'_> {
    /// The name of a parameter, or the offset of its type where it has none.
    #[tactic(auto, unfolding(c_grammar::specs::inside::ModelParameters::label_of))]
    fn label(&mut self, offset: u32) -> Result<(u32, Option<Word>), Stopped>
        ensures { Reads (parameters.label_of offset self.old.rest.now) result self.new.rest.now }
    {
        if self.is_name() {
            let (offset, name) = self.name()?;
            return Ok((offset, Some(name)));
        }
        Ok((offset, None))
    }

    #[tactic(auto, unfolding(c_grammar::specs::inside::ModelParameters::brackets_of))]
    fn brackets(&mut self, left: u8) -> Result<ArraySize, Stopped>
        ensures { Reads (parameters.brackets_of (inside left) self.old.rest.now) result
            self.new.rest.now }
    {
        if self.is_next(Mark::LeftBracket) {
            return self.dimensions(left);
        }
        Ok(ArraySize::Scalar)
    }

    #[tactic(auto, unfolding(c_grammar::specs::inside::ModelParameters::param_of))]
    fn param(&mut self, left: u8) -> Result<Param, Stopped>
        ensures { Reads (parameters.param_of (inside left) self.old.rest.now) result self.new.rest.now }
    {
        let (offset, kind) = self.type_name()?;
        let (offset, name) = self.label(offset)?;
        let size = self.brackets(left)?;
        Ok(Param {
            offset,
            kind,
            name,
            size,
        })
    }

    fn param_list(&mut self, left: u8) -> Result<Items<Param>, Stopped>
        ensures { Reads (parameters.param_list_of (inside left) self.old.rest.now) result
            self.new.rest.now }
    {
        let mut found = Items::new(self.alloc);
        let turns = self.rest.len() + 1;
        for _turn in 0..turns {
            let param = self.param(left)?;
            found.push(param)?;
            if self.is_next(Mark::Comma) {
                self.advance();
            } else {
                self.expect(Mark::RightParen)?;
                return Ok(found);
            }
        }
        Err(Stopped::Syntax)
    }

    /// Parameters up to the closing parenthesis.
    #[tactic(auto, unfolding(c_grammar::specs::inside::ModelParameters::no_params_of, c_grammar::specs::inside::ModelParameters::void_params_of, c_grammar::specs::inside::ModelParameters::params_of))]
    fn params(&mut self, left: u8) -> Result<Items<Param>, Stopped>
        ensures { Reads (parameters.params_of (inside left) self.old.rest.now) result self.new.rest.now }
    {
        if self.is_next(Mark::RightParen) {
            self.expect(Mark::RightParen)?;
            return Ok(Items::new(self.alloc));
        }
        if self.is_word(Key::Void) {
            self.expect_keyword(Key::Void)?;
            self.expect(Mark::RightParen)?;
            return Ok(Items::new(self.alloc));
        }
        self.param_list(left)
    }

    /// The semicolon of a prototype.
    #[tactic(auto, unfolding(c_grammar::specs::inside::ModelUnits::declared_of))]
    fn prototype(
        &mut self,
        outer: u8,
        left: u8,
        given: Option<Kind>,
        offset: u32,
        name: Word,
        params: Items<Param>,
    ) -> Result<Top, Stopped>
        ensures { Reads (model.declared_of (inside outer)
            (compound_of (inside left) (below_at left)) given offset name params self.old.rest.now)
            result self.new.rest.now }
    {
        let _unused = (outer, left);
        self.expect(Mark::Semicolon)?;
        Ok(Top {
            offset,
            node: TopNode::Func {
                result: given,
                name,
                params,
                body: None,
            },
        })
    }

    /// A function's body.
    #[tactic(auto, unfolding(c_grammar::specs::inside::ModelUnits::defined_of))]
    fn definition(
        &mut self,
        outer: u8,
        left: u8,
        given: Option<Kind>,
        offset: u32,
        name: Word,
        params: Items<Param>,
    ) -> Result<Top, Stopped>
        ensures { Reads (model.defined_of (inside outer) (compound_of (inside left) (below_at left))
            given offset name params self.old.rest.now) result self.new.rest.now }
    {
        let _unused = outer;
        let body = self.compound(left)?;
        Ok(Top {
            offset,
            node: TopNode::Func {
                result: given,
                name,
                params,
                body: Some(body),
            },
        })
    }

    /// What stands behind the parameters: a body, or the semicolon of a prototype.
    #[tactic(auto, unfolding(c_grammar::specs::inside::ModelUnits::rest_of))]
    fn rest_of_function(
        &mut self,
        outer: u8,
        left: u8,
        given: Option<Kind>,
        offset: u32,
        name: Word,
        params: Items<Param>,
    ) -> Result<Top, Stopped>
        ensures { Reads (model.rest_of (inside outer) (compound_of (inside left) (below_at left))
            given offset name params self.old.rest.now) result self.new.rest.now }
    {
        if self.is_next(Mark::LeftBrace) {
            return self.definition(outer, left, given, offset, name, params);
        }
        self.prototype(outer, left, given, offset, name, params)
    }

    /// A function behind its name, which is put behind the items that were found.
    #[tactic(auto, unfolding(c_grammar::specs::inside::ModelUnits::func_of))]
    fn function(
        &mut self,
        outer: u8,
        left: u8,
        given: Option<Kind>,
        offset: u32,
        name: Word,
        found: &mut Items<Top>,
    ) -> Result<(), Stopped>
        ensures { Puts (model.func_of (inside outer) (compound_of (inside left) (below_at left))
            given offset name self.old.rest.now) found.old found.new result self.new.rest.now }
    {
        self.expect(Mark::LeftParen)?;
        let params = self.params(outer)?;
        let function = self.rest_of_function(outer, left, given, offset, name, params)?;
        found.push(function)?;
        Ok(())
    }

    /// What stands behind a type and a name.
    #[tactic(auto, unfolding(c_grammar::specs::inside::ModelUnits::after_name))]
    fn named_item(
        &mut self,
        outer: u8,
        left: u8,
        kind: Kind,
        offset: u32,
        name: Word,
        found: &mut Items<Top>,
    ) -> Result<(), Stopped>
        ensures { Puts (model.after_name (inside outer) (compound_of (inside left) (below_at left))
            kind offset name self.old.rest.now) found.old found.new result self.new.rest.now }
    {
        if self.is_next(Mark::LeftParen) {
            return self.function(outer, left, Some(kind), offset, name, found);
        }
        self.globals(outer, kind, offset, name, found)
    }

    #[tactic(auto, unfolding(c_grammar::specs::inside::ModelUnits::void_item_of))]
    fn void_item(&mut self, outer: u8, left: u8, found: &mut Items<Top>) -> Result<(), Stopped>
        ensures { Puts (model.void_item_of (inside outer)
            (compound_of (inside left) (below_at left)) self.old.rest.now) found.old found.new result
            self.new.rest.now }
    {
        self.expect_keyword(Key::Void)?;
        let (offset, name) = self.name()?;
        self.function(outer, left, None, offset, name, found)
    }

    #[tactic(auto, unfolding(c_grammar::specs::inside::ModelUnits::typed_item_of))]
    fn typed_item(&mut self, outer: u8, left: u8, found: &mut Items<Top>) -> Result<(), Stopped>
        ensures { Puts (model.typed_item_of (inside outer)
            (compound_of (inside left) (below_at left)) self.old.rest.now) found.old found.new result
            self.new.rest.now }
    {
        let (_, kind) = self.type_name()?;
        let (offset, name) = self.name()?;
        self.named_item(outer, left, kind, offset, name, found)
    }

    /// Whether no token is left.
    fn is_end(&self) -> bool
        ensures { result ≡ parsing.is_end self.now.rest.now }
    {
        match self.rest {
            [] => true,
            _ => false,
        }
    }

    fn is_include(&self) -> bool
        ensures { result ≡ parsing.first model.is_include self.now.rest.now }
    {
        match self.rest {
            [] => false,
            [lexeme, ..] => matches!(&lexeme.form, Form::Include),
        }
    }

    #[tactic(auto, unfolding(c_grammar::specs::inside::ModelUnits::include_of))]
    fn include(&mut self, found: &mut Items<Top>) -> Result<(), Stopped>
        ensures { Puts (model.include_of self.old.rest.now) found.old found.new result
            self.new.rest.now }
    {
        if !self.is_include() {
            return Err(Stopped::Syntax);
        }
        let offset = self.offset();
        self.advance();
        let include = Top {
            offset,
            node: TopNode::Include,
        };
        found.push(include)?;
        Ok(())
    }

    /// An item, which is put behind those that were found.
    #[tactic(auto, unfolding(c_grammar::specs::inside::ModelUnits::item_of))]
    fn item(&mut self, outer: u8, left: u8, found: &mut Items<Top>) -> Result<(), Stopped>
        ensures { Puts (model.item_of (inside outer) (compound_of (inside left) (below_at left))
            self.old.rest.now) found.old found.new result self.new.rest.now }
    {
        if self.is_include() {
            return self.include(found);
        }
        if self.is_word(Key::Void) {
            return self.void_item(outer, left, found);
        }
        self.typed_item(outer, left, found)
    }

    /// Items up to the end, one at least.
    pub fn unit(&mut self) -> Result<Items<Top>, Stopped>
        ensures { Reads (model.unit_of (most_nesting - 1) self.old.rest.now) result self.new.rest.now }
    {
        let mut found = Items::new(self.alloc);
        let turns = self.rest.len() + 1;
        for _turn in 0..turns {
            self.item(MOST_NESTING, MOST_NESTING - 1, &mut found)?;
            if self.is_end() {
                return Ok(found);
            }
        }
        Err(Stopped::Syntax)
    }
}
