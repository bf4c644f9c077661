//! Objects that are const, and where a unit would set one.

ghost use Rattle.std.specs.Prelude.{◌≡◌, [], ◌∷◌, ◌++◌, IfOk, OnOk};
ghost use Rattle.c_words.specs.Guards as guards;
ghost use Rattle.c_words.specs.Levels as levels;

use crate::keys::{declares, is_const, is_key};
use crate::level::{
    Before, Declares, Ends, Level, Levels, awaits_declarator, behind_closing, behind_comma,
    behind_key, behind_paren, behind_star, behind_word, group_ends, index_ends, is_bump, is_choice,
    is_fixed_declaration, is_fixed_operand, operand, with_word,
};
use crate::names::Names;
use crate::ordered::{opens, put_copy, put_key};
use base::Items;
use c_tree::{Form, Key, Lexeme, Mark, Word};
use std::alloc::{AllocError, Global};

/// What is known before a token: what stands directly before it, what is declared within the brackets that are open,
/// and which names are of objects that are const, in the unit and in the item of the unit that is read.
#[derive(Drop)]
pub struct Guard {
    pub before: Before,
    pub level: Level,
    pub around: Levels,
    pub unit: Names,
    pub item: Names,
}

/// `++` and `--`, and the operators that assign.
fn is_setting(mark: Mark) -> bool
    ensures { result ≡ levels.is_setting mark }
{
    match mark {
        Mark::PlusPlus
        | Mark::MinusMinus
        | Mark::Assign
        | Mark::PlusAssign
        | Mark::MinusAssign
        | Mark::StarAssign
        | Mark::SlashAssign
        | Mark::PercentAssign
        | Mark::ShiftLeftAssign
        | Mark::ShiftRightAssign
        | Mark::AndAssign
        | Mark::XorAssign
        | Mark::OrAssign => true,
        _ => false,
    }
}

impl Guard {
    /// Before the first token. It takes no memory.
    fn new(alloc: Global) -> Guard
        ensures { result ≡ guards.start }
    {
        Guard {
            before: Before::Other,
            level: Level {
                declares: Declares::Nothing,
                ends: Ends::Nothing,
            },
            around: Levels::new(alloc),
            unit: Names::new(alloc),
            item: Names::new(alloc),
        }
    }

    /// Is the name that of an object that is const?
    fn is_fixed(&self, word: &Word) -> bool
        ensures { result ≡ guards.is_fixed word.now self.now }
    {
        self.unit.has(word) || self.item.has(word)
    }

    /// Is one set at this token?
    fn sets(&self, form: &Form) -> bool
        ensures { result ≡ guards.sets self.now form.now }
    {
        match form {
            Form::Name(word) => is_bump(self.before) && self.is_fixed(word),
            Form::Mark(mark) => is_fixed_operand(self.before) && is_setting(*mark),
            _ => false,
        }
    }

    /// One name more of objects that are const. Want of memory is the only error.
    fn add(&mut self, alloc: Global, word: &Word) -> Result<(), AllocError>
        ensures { OnOk result (self.new ≡ guards.with_name word.now self.old) }
    {
        if self.around.is_outside() {
            self.unit.add(alloc, word)
        } else {
            self.item.add(alloc, word)
        }
    }

    /// Goes past a declarator, of a function or not. Want of memory is the only error.
    fn declare(&mut self, alloc: Global, word: &Word, is_function: bool) -> Result<(), AllocError>
        ensures { OnOk result (self.new ≡ guards.declared word.now is_function self.old) }
    {
        if is_fixed_declaration(self.level.declares) && !is_function {
            self.add(alloc, word)
        } else {
            Ok(())
        }
    }

    /// Goes past a name, before these tokens. Want of memory is the only error.
    fn pass_name(&mut self, alloc: Global, word: &Word, behind: &[Lexeme]) -> Result<(), AllocError>
        ensures { OnOk result (self.new ≡ guards.past_name word.now behind.now self.old) }
    {
        if awaits_declarator(self.before) {
            self.declare(alloc, word, opens(behind))?;
            self.before = Before::Other;
        } else {
            self.before = operand(self.is_fixed(word));
        }
        Ok(())
    }

    /// Goes past a keyword of declarations.
    fn pass_word(&mut self, is_const: bool)
        ensures { self.new ≡ guards.past_word is_const self.old }
    {
        self.level.declares = with_word(self.before, is_const, self.level.declares);
        self.before = behind_word(self.before);
    }

    /// Goes past a keyword.
    fn pass_key(&mut self, key: Key)
        ensures { self.new ≡ guards.past_key key self.old }
    {
        if declares(key) {
            self.pass_word(is_const(key));
        } else {
            self.before = behind_key(key, self.before);
        }
    }

    /// Goes past a bracket that opens. Want of memory is the only error.
    fn open(&mut self, ends: Ends, before: Before) -> Result<(), AllocError>
        ensures { OnOk result (self.new ≡ guards.opened ends before self.old) }
    {
        self.around.open(self.level)?;
        self.level = Level {
            declares: Declares::Nothing,
            ends,
        };
        self.before = before;
        Ok(())
    }

    /// Goes past one that closes.
    fn close(&mut self)
        ensures { self.new ≡ guards.closed self.old }
    {
        self.before = behind_closing(self.level.ends, self.before);
        self.level = self.around.innermost();
        self.around.close();
    }

    /// Where no bracket is open an item of the unit ends.
    fn end_item(&mut self, alloc: Global)
        ensures { self.new ≡ guards.item_ends self.old }
    {
        if self.around.is_outside() {
            self.item = Names::new(alloc);
        }
    }

    /// Goes past the end of a declaration.
    fn end_declaration(&mut self)
        ensures { self.new ≡ guards.declaration_ends self.old }
    {
        self.before = Before::Other;
        self.level.declares = Declares::Nothing;
    }

    /// Goes past a `:`.
    fn pass_colon(&mut self)
        ensures { self.new ≡ guards.past_colon self.old }
    {
        if is_choice(self.level.ends) {
            self.close();
        } else {
            self.before = Before::Other;
        }
    }

    /// Goes past a punctuator. Want of memory is the only error.
    fn pass_mark(&mut self, alloc: Global, mark: Mark) -> Result<(), AllocError>
        ensures { OnOk result (self.new ≡ guards.past_mark mark self.old) }
    {
        match mark {
            Mark::LeftParen => self.open(group_ends(self.before), behind_paren(self.before))?,
            Mark::LeftBracket => self.open(index_ends(self.before), Before::Other)?,
            Mark::LeftBrace => self.open(Ends::Nothing, Before::Other)?,
            Mark::Question => self.open(Ends::Choice, Before::Other)?,
            Mark::RightParen | Mark::RightBracket => self.close(),
            Mark::RightBrace => {
                self.close();
                self.end_item(alloc);
            }
            Mark::Colon => self.pass_colon(),
            Mark::Semicolon => {
                self.end_declaration();
                self.end_item(alloc);
            }
            Mark::Comma => self.before = behind_comma(self.level.declares),
            Mark::Star => self.before = behind_star(self.before),
            Mark::PlusPlus | Mark::MinusMinus => self.before = Before::Bump,
            _ => self.before = Before::Other,
        }
        Ok(())
    }

    /// Goes past a token, which stands before these. Want of memory is the only error.
    fn pass(&mut self, alloc: Global, form: &Form, behind: &[Lexeme]) -> Result<(), AllocError>
        ensures { OnOk result (self.new ≡ guards.past form.now behind.now self.old) }
    {
        match form {
            Form::Name(word) => self.pass_name(alloc, word, behind),
            Form::Key(key) => {
                self.pass_key(*key);
                Ok(())
            }
            Form::Mark(mark) => self.pass_mark(alloc, *mark),
            _ => {
                self.before = Before::Other;
                Ok(())
            }
        }
    }
}

/// Puts what stands for a token. Want of memory is the only error.
fn put(
    alloc: Global,
    is_set: bool,
    token: &Lexeme,
    out: &mut Items<Lexeme>,
) -> Result<(), AllocError>
    ensures { OnOk result (out.new ≡ out.old ++ guards.stands_for is_set token.now) }
{
    if is_set {
        put_key(token.offset, Key::Const, out)?;
    }
    put_copy(alloc, token, out)
}

/// Does the keyword `const` stand among the tokens?
pub fn has_const(tokens: &[Lexeme]) -> bool
    ensures { result ≡ guards.has_const tokens.now }
{
    let mut rest = tokens;
    while let [token, more @ ..] = rest {
        if is_key(Key::Const, &token.form) {
            return true;
        }
        rest = more;
    }
    false
}

/// The tokens of a unit, with the keyword `const` where an object would be set that is const. Want of memory is the
/// only error.
pub fn guarded_from_start(alloc: Global, tokens: &[Lexeme]) -> Result<Items<Lexeme>, AllocError>
    ensures ok { IfOk result (λ out. out ≡ guards.guarded_from guards.start tokens.now) }
{
    let mut out = Items::new(alloc);
    let mut guard = Guard::new(alloc);
    let mut rest = tokens;
    while let [token, more @ ..] = rest {
        put(alloc, guard.sets(&token.form), token, &mut out)?;
        guard.pass(alloc, &token.form, more)?;
        rest = more;
    }
    Ok(out)
}
