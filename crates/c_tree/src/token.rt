use crate::Word;

/// A keyword (C17 6.4.1).
#[derive(Clone, Copy, Debug, PartialEq, Eq)]
pub enum Key {
    Auto,
    Break,
    Case,
    Char,
    Const,
    Continue,
    Default,
    Do,
    Double,
    Else,
    Enum,
    Extern,
    Float,
    For,
    Goto,
    If,
    Inline,
    Int,
    Long,
    Register,
    Restrict,
    Return,
    Short,
    Signed,
    Sizeof,
    Static,
    Struct,
    Switch,
    Typedef,
    Union,
    Unsigned,
    Void,
    Volatile,
    While,
    Alignas,
    Alignof,
    Atomic,
    Bool,
    Complex,
    Generic,
    Imaginary,
    Noreturn,
    StaticAssert,
    ThreadLocal,
}

/// A punctuator (C17 6.4.6), of those that the profile has.
#[derive(Clone, Copy, Debug, PartialEq, Eq)]
pub enum Mark {
    LeftParen,
    RightParen,
    LeftBrace,
    RightBrace,
    LeftBracket,
    RightBracket,
    Semicolon,
    Comma,
    Question,
    Colon,
    Tilde,
    Not,
    Plus,
    Minus,
    Star,
    Slash,
    Percent,
    ShiftLeft,
    ShiftRight,
    Less,
    Greater,
    LessEqual,
    GreaterEqual,
    Equal,
    NotEqual,
    And,
    Xor,
    Or,
    AndAnd,
    OrOr,
    Assign,
    PlusAssign,
    MinusAssign,
    StarAssign,
    SlashAssign,
    PercentAssign,
    ShiftLeftAssign,
    ShiftRightAssign,
    AndAssign,
    XorAssign,
    OrAssign,
    PlusPlus,
    MinusMinus,
}

/// An integer type: `char` (which is signed), `unsigned char`, `short`, `unsigned short`, `int`,
/// `unsigned int`, `long`, `unsigned long` and `_Bool`, of 8, 8, 16, 16, 32, 32, 64, 64 bits and 1.
#[derive(Clone, Copy, Debug, PartialEq, Eq)]
pub enum Kind {
    Char,
    UChar,
    Short,
    UShort,
    Int,
    UInt,
    Long,
    ULong,
    Bool,
}

/// What a token is: the line `#include <stdio.h>`, a keyword, a name, a constant or a punctuator.
#[derive(Debug, Drop)]
pub enum Form {
    Include,
    Key(Key),
    Name(Word),
    Number { value: u64, kind: Kind },
    Mark(Mark),
}

/// A token and its offset: how many bytes of the text stand before its first byte.
#[derive(Debug, Drop)]
pub struct Lexeme {
    pub offset: u32,
    pub form: Form,
}
