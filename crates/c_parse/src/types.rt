//! Names of types.

ghost use Rattle.std.specs.Prelude.{◌≡◌};
ghost use Rattle.c_grammar.specs.inside.ModelTypes as model;
ghost use Rattle.c_parse.specs.inside.Reads.{Reads};

use crate::fault::Stopped;
use crate::parser::Parser;
use c_tree::{Key, Kind};

impl Parser<'_> {
    /// An `int` that may be left out.
    #[tactic(auto, unfolding(c_grammar::specs::inside::ModelTypes::int_of))]
    fn int(&mut self, offset: u32, kind: Kind) -> Result<(u32, Kind), Stopped>
        ensures { Reads (model.int_of offset kind self.old.rest.now) result self.new.rest.now }
    {
        if self.is_word(Key::Int) {
            self.expect_keyword(Key::Int)?;
        }
        Ok((offset, kind))
    }

    #[tactic(auto, unfolding(c_grammar::specs::inside::ModelTypes::char_of))]
    fn char(&mut self, offset: u32, kind: Kind) -> Result<(u32, Kind), Stopped>
        ensures { Reads (model.char_of offset kind self.old.rest.now) result self.new.rest.now }
    {
        self.expect_keyword(Key::Char)?;
        Ok((offset, kind))
    }

    /// `short` or `long`, and an `int` that may be left out, behind a sign.
    #[tactic(auto, unfolding(c_grammar::specs::inside::ModelTypes::and_int_of))]
    fn and_int(&mut self, key: Key, offset: u32, kind: Kind) -> Result<(u32, Kind), Stopped>
        ensures { Reads (model.and_int_of key offset kind self.old.rest.now) result
            self.new.rest.now }
    {
        self.expect_keyword(key)?;
        self.int(offset, kind)
    }

    /// Behind `signed` or `unsigned`: the types with `char`, `short`, `int` and `long`.
    #[tactic(auto, unfolding(c_grammar::specs::inside::ModelTypes::sized_of))]
    fn sized(
        &mut self,
        offset: u32,
        char: Kind,
        short: Kind,
        int: Kind,
        long: Kind,
    ) -> Result<(u32, Kind), Stopped>
        ensures { Reads (model.sized_of offset char short int long self.old.rest.now) result
            self.new.rest.now }
    {
        if self.is_word(Key::Char) {
            return self.char(offset, char);
        }
        if self.is_word(Key::Short) {
            return self.and_int(Key::Short, offset, short);
        }
        if self.is_word(Key::Long) {
            return self.and_int(Key::Long, offset, long);
        }
        self.int(offset, int)
    }

    #[tactic(auto, unfolding(c_grammar::specs::inside::ModelTypes::signed_of))]
    fn signed(&mut self) -> Result<(u32, Kind), Stopped>
        ensures { Reads (model.signed_of self.old.rest.now) result self.new.rest.now }
    {
        let offset = self.expect_keyword(Key::Signed)?;
        self.sized(offset, Kind::Char, Kind::Short, Kind::Int, Kind::Long)
    }

    #[tactic(auto, unfolding(c_grammar::specs::inside::ModelTypes::unsigned_of))]
    fn unsigned(&mut self) -> Result<(u32, Kind), Stopped>
        ensures { Reads (model.unsigned_of self.old.rest.now) result self.new.rest.now }
    {
        let offset = self.expect_keyword(Key::Unsigned)?;
        self.sized(offset, Kind::UChar, Kind::UShort, Kind::UInt, Kind::ULong)
    }

    #[tactic(auto, unfolding(c_grammar::specs::inside::ModelTypes::plain_of))]
    fn plain(&mut self, key: Key, kind: Kind) -> Result<(u32, Kind), Stopped>
        ensures { Reads (model.plain_of key kind self.old.rest.now) result self.new.rest.now }
    {
        let offset = self.expect_keyword(key)?;
        Ok((offset, kind))
    }

    /// A type that begins with `short` or `long`.
    #[tactic(auto, unfolding(c_grammar::specs::inside::ModelTypes::begun_of))]
    fn begun(&mut self, key: Key, kind: Kind) -> Result<(u32, Kind), Stopped>
        ensures { Reads (model.begun_of key kind self.old.rest.now) result self.new.rest.now }
    {
        let offset = self.expect_keyword(key)?;
        self.int(offset, kind)
    }

    /// A type, and the offset of its first word.
    #[tactic(auto, unfolding(c_grammar::specs::inside::ModelTypes::type_of))]
    pub fn type_name(&mut self) -> Result<(u32, Kind), Stopped>
        ensures { Reads (model.type_of self.old.rest.now) result self.new.rest.now }
    {
        if self.is_word(Key::Char) {
            return self.plain(Key::Char, Kind::Char);
        }
        if self.is_word(Key::Int) {
            return self.plain(Key::Int, Kind::Int);
        }
        if self.is_word(Key::Short) {
            return self.begun(Key::Short, Kind::Short);
        }
        if self.is_word(Key::Long) {
            return self.begun(Key::Long, Kind::Long);
        }
        if self.is_word(Key::Signed) {
            return self.signed();
        }
        if self.is_word(Key::Bool) {
            return self.plain(Key::Bool, Kind::Bool);
        }
        self.unsigned()
    }
}
