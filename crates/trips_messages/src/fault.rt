//! The faults of texts of C.

ghost use Rattle.std.specs.Prelude.{◌≡◌};
ghost use Rattle.trips_messages.specs.Texts as texts;

/// A fault of a text of C, of its tokens, its grammar or its typing, as the three stages name them.
#[derive(Clone, Copy, Debug, PartialEq, Eq)]
pub enum Fault {
    BadByte,
    BadLiteral,
    Unclosed,
    TooManyTokens,
    Directive,
    Unbalanced,
    Redefined,
    BadDefine,
    TooManyReplaced,
    Format,
    Syntax,
    TooDeep,
    Unknown,
    Twice,
    Mismatch,
    Arity,
    NoMain,
    TooManyScalars,
    TooManyParams,
    Need,
    TooLarge,
}

/// The stage that refuses, and the name of the fault.
#[tactic(auto, unfolding(crate::specs::Texts::title))]
pub fn title(fault: Fault) -> &'static str
    ensures { result.now ≡ texts.title fault }
{
    match fault {
        Fault::BadByte => "lex BadByte",
        Fault::BadLiteral => "lex BadLiteral",
        Fault::Unclosed => "lex Unclosed",
        Fault::TooManyTokens => "lex TooManyTokens",
        Fault::Directive => "lex Directive",
        Fault::Unbalanced => "directive Unbalanced",
        Fault::Redefined => "directive Redefined",
        Fault::BadDefine => "directive BadDefine",
        Fault::TooManyReplaced => "directive TooManyTokens",
        Fault::Format => "directive Format",
        Fault::Syntax => "parse Syntax",
        Fault::TooDeep => "parse TooDeep",
        Fault::Unknown => "type Unknown",
        Fault::Twice => "type Twice",
        Fault::Mismatch => "type Mismatch",
        Fault::Arity => "type Arity",
        Fault::NoMain => "type NoMain",
        Fault::TooManyScalars => "type TooManyScalars",
        Fault::TooManyParams => "type TooManyParams",
        Fault::Need => "type Need",
        Fault::TooLarge => "type TooLarge",
    }
}
