//! Switches, their sections and their labels (C17 6.8.1, 6.8.4.2).

ghost use Rattle.std.specs.Prelude.{◌≡◌, length};
ghost use Rattle.c_grammar.specs.inside.Parsing as parsing;
ghost use Rattle.c_grammar.specs.inside.ModelExpressions.{inside};
ghost use Rattle.c_grammar.specs.inside.ModelStatements as model;
ghost use Rattle.c_grammar.specs.inside.ModelBegins as begins;
ghost use Rattle.c_grammar.specs.inside.ModelSwitches as switches;
ghost use Rattle.c_parse.specs.inside.Reads.{Reads};

use crate::build;
use crate::fault::Stopped;
use crate::parser::Parser;
use base::Items;
use c_tree::{Form, Key, Label, Mark, Section, Stmt};

impl Parser<'_> {
    /// Can a label begin with the first token?
    fn begins_label(&self) -> bool
        ensures { result ≡ parsing.first begins.begins_label self.now.rest.now }
    {
        match self.rest {
            [] => false,
            [lexeme, ..] => begins_with(&lexeme.form),
        }
    }

    #[tactic(auto, unfolding(c_grammar::specs::inside::ModelSwitches::case_of))]
    fn case_label(&mut self, left: u8) -> Result<Label, Stopped>
        ensures { Reads (switches.case_of (inside left) self.old.rest.now) result self.new.rest.now }
    {
        let offset = self.expect_keyword(Key::Case)?;
        let value = self.conditional(left)?;
        self.expect(Mark::Colon)?;
        Ok(Label {
            offset,
            value: Some(value),
        })
    }

    #[tactic(auto, unfolding(c_grammar::specs::inside::ModelSwitches::default_of))]
    fn default_label(&mut self, left: u8) -> Result<Label, Stopped>
        ensures { Reads (switches.default_of (inside left) self.old.rest.now) result
            self.new.rest.now }
    {
        let offset = self.expect_keyword(Key::Default)?;
        self.expect(Mark::Colon)?;
        let _unused = left;
        Ok(Label {
            offset,
            value: None,
        })
    }

    #[tactic(auto, unfolding(c_grammar::specs::inside::ModelSwitches::label_of))]
    fn section_label(&mut self, left: u8) -> Result<Label, Stopped>
        ensures { Reads (switches.label_of (inside left) self.old.rest.now) result self.new.rest.now }
    {
        if self.is_word(Key::Case) {
            return self.case_label(left);
        }
        self.default_label(left)
    }

    /// The labels of a section, one at least.
    fn labels(&mut self, left: u8) -> Result<Items<Label>, Stopped>
        ensures { Reads (switches.labels_of (inside left) self.old.rest.now) result self.new.rest.now }
    {
        let mut found = Items::new(self.alloc);
        let turns = self.rest.len() + 1;
        for _turn in 0..turns {
            let label = self.section_label(left)?;
            found.push(label)?;
            if !self.begins_label() {
                return Ok(found);
            }
        }
        Err(Stopped::Syntax)
    }

    /// The statements of a section, one at least.
    #[cycle(statement)]
    fn section_body(&mut self, left: u8) -> Result<Items<Stmt>, Stopped>
        ensures { Reads (switches.body_of (inside left) (model.below_at left) self.old.rest.now) result
            self.new.rest.now }
    {
        let mut found = Items::new(self.alloc);
        let turns = self.rest.len() + 1;
        for _turn in 0..turns {
            let statement = self.inner(left)?;
            found.push(statement)?;
            if !self.begins_statement() {
                return Ok(found);
            }
        }
        Err(Stopped::Syntax)
    }

    #[cycle(statement)]
    #[tactic(auto, unfolding(c_grammar::specs::inside::ModelSwitches::section_of))]
    fn section(&mut self, left: u8) -> Result<Items<Section>, Stopped>
        ensures { Reads (switches.section_of (inside left) (model.below_at left) self.old.rest.now)
            result self.new.rest.now }
    {
        let labels = self.labels(left)?;
        let body = self.section_body(left)?;
        let mut found = Items::new(self.alloc);
        found.push(Section { labels, body })?;
        Ok(found)
    }

    /// Sections up to the closing brace.
    #[cycle(statement)]
    fn sections(&mut self, left: u8) -> Result<Items<Section>, Stopped>
        ensures { Reads (switches.sections_of (inside left) (model.below_at left) self.old.rest.now)
            result self.new.rest.now }
    {
        let mut found = Items::new(self.alloc);
        let turns = self.rest.len() + 1;
        for _turn in 0..turns {
            if self.is_next(Mark::RightBrace) {
                self.advance();
                return Ok(found);
            }
            let more = self.section(left)?;
            found.append(more)?;
        }
        Err(Stopped::Syntax)
    }

    #[cycle(statement)]
    #[tactic(auto, unfolding(c_grammar::specs::inside::ModelSwitches::switch_of))]
    pub fn switch_statement(&mut self, left: u8) -> Result<Stmt, Stopped>
        ensures { Reads (switches.switch_of (inside left) (model.below_at left) self.old.rest.now)
            result self.new.rest.now }
    {
        let offset = self.expect_keyword(Key::Switch)?;
        let test = self.test(left)?;
        self.expect(Mark::LeftBrace)?;
        let sections = self.sections(left)?;
        Ok(build::switch(offset, test, sections))
    }
}

fn begins_with(form: &Form) -> bool
    ensures { result ≡ begins.begins_label form.now }
{
    match form {
        Form::Key(key) => matches!(key, Key::Case | Key::Default),
        _ => false,
    }
}
