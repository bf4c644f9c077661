//! What is said of a refusal.

ghost use Rattle.std.specs.Prelude.{◌≡◌};
ghost use Rattle.trips_messages.specs.Texts as texts;

/// What is said of a refusal, one for each sentence.
#[derive(Clone, Copy, Debug, PartialEq, Eq)]
pub enum Saying {
    Strings,
    Member,
    Splice,
    LateHash,
    OtherByte,
    NoToken,
    FloatingConstant,
    Character,
    Number,
    Comment,
    Tokens,
    Header,
    Conditional,
    OtherDirective,
    Aggregate,
    NewType,
    Storage,
    Qualifier,
    Floating,
    Boolean,
    Jump,
    Size,
    Pointer,
    Address,
    Long,
    Colon,
    StringHere,
    OpenBrace,
    Equals,
    Else,
    CloseBrace,
    NoText,
    NotHere,
    Deep,
    Group,
    OtherBody,
    BadLine,
    Replaced,
    Format,
    Library,
    Undeclared,
    Printing,
    Classifying,
    General,
    Copying,
    NoFunction,
    NoName,
    LabelTwice,
    NameTwice,
    Return,
    NoLoop,
    NoFit,
    Arguments,
    Main,
    Scalars,
    Parameters,
    Temporaries,
    Large,
    Undefined,
    Late,
    Near,
    NearFunction,
    Semicolon,
    RightParen,
    RightBracket,
    LastBrace,
    NotOpened,
    NoType,
    Untyped,
}

/// The sentence, behind the word at fault.
#[tactic(auto, unfolding(crate::specs::Texts::sentence))]
pub fn sentence(saying: Saying) -> &'static str
    ensures { result.now ≡ texts.sentence saying }
{
    match saying {
        Saying::Strings =>
            "begins no string: write characters and escapes on one line, and a closing quote",
        Saying::Member =>
            "stands for a member of a struct or for more arguments, which are left out: use arrays and variables",
        Saying::Splice => "joins no lines here: write what belongs together on one line",
        Saying::LateHash => "begins a directive at the start of a line alone",
        Saying::OtherByte =>
            "is the number of a byte that begins no token: outside comments a text has ASCII alone",
        Saying::NoToken => "begins no token",
        Saying::FloatingConstant =>
            "is a floating constant, which is left out: write whole numbers, as hundredths",
        Saying::Character =>
            "begins no character constant: write one character or one escape, and a closing quote",
        Saying::Number =>
            "is no constant: write a whole number of 64 bits in base 8, 10 or 16, with u and l behind it or none",
        Saying::Comment => "begins a comment without end: write */ behind it",
        Saying::Tokens =>
            "is the 8,193rd token, and a text may have 8,192: write loops and functions for what is repeated",
        Saying::Header =>
            "includes no header that is here: write #include <stdio.h> or nothing, and define the rest in the text",
        Saying::Conditional =>
            "chooses parts of a text by an expression, which is left out: write #ifdef, or the part that is wanted",
        Saying::OtherDirective =>
            "is no directive that is here: only #include, #define, #undef, #ifdef, #ifndef, #else and #endif are",
        Saying::Aggregate =>
            "is left out: write a variable for each member, and an array for each member of many",
        Saying::NewType =>
            "names what is left out, or named already: name types of whole numbers and int constants, once in a block",
        Saying::Storage =>
            "does not stand here: write the declaration without it, and an object of extern where it is defined",
        Saying::Qualifier =>
            "does not stand here: write it beside the words of a type, or the type without it",
        Saying::Floating =>
            "is a floating type, which is left out: use int or long, as for hundredths",
        Saying::Boolean => "does not stand here: write it without another word of a type",
        Saying::Jump => "is left out: use loops, break, continue and return",
        Saying::Size =>
            "does not stand here: sizeof takes a type, or a value of names declared before, so write the bytes",
        Saying::Pointer =>
            "does not stand here: pointers are left out but for parameters, so use an array and an index",
        Saying::Address =>
            "does not stand here: addresses are left out, so return a value or set a global variable",
        Saying::Long => "does not stand here: write the words of one type, and long at most twice",
        Saying::Colon =>
            "does not stand here: labels for goto are left out, and case stands in the braces of a switch alone",
        Saying::StringHere =>
            "begins a string where none stands: it is an argument, or the value of an array of char",
        Saying::OpenBrace =>
            "does not stand here: braces in a list are rows of an array of two sizes, and no function stands in another",
        Saying::Equals =>
            "does not stand here: set a variable or an element of an array, and none that is const",
        Saying::Else => "has no if before it: look for a ; or a brace too many",
        Saying::CloseBrace =>
            "does not stand here: look for a ; that is missing before it, also behind a label",
        Saying::NoText => "is all that stands here: write int main(void) { return 0; } at least",
        Saying::NotHere =>
            "does not stand here: look for a ; or a bracket that is missing before it, or behind it at the end",
        Saying::Deep =>
            "opens a construct at depth 65, and 64 is the most: use variables and functions",
        Saying::Group =>
            "fits no group: write one #endif for each #ifdef and #ifndef, and one #else between at most",
        Saying::OtherBody => "gives a macro another body: write #undef before it, or another name",
        Saying::BadLine =>
            "is no good line: write one name, for #define a space and the body behind it, and no parameters",
        Saying::Replaced =>
            "makes more than 8,192 tokens with replaced names, strings and the library: write loops and functions",
        Saying::Format =>
            "begins a format that printf has not here: write %d, %u, %x, %o, %c, %s or %%, and eight at most",
        Saying::Library =>
            "is a name of the library that is not here: define what is needed of it in the text",
        Saying::Undeclared => "is not declared: write #include <stdio.h> before it",
        Saying::Printing =>
            "wants #include <stdio.h> before it, and a string as its first argument",
        Saying::Classifying => "is not declared: write #include <ctype.h> before it",
        Saying::General => "is not declared: write #include <stdlib.h> before it",
        Saying::Copying => "is not declared: write #include <string.h> before it",
        Saying::NoFunction =>
            "is called, and the text has no function of this name: define it before this place",
        Saying::NoName => "is not declared before this place",
        Saying::LabelTwice => "gives a label that stands in this switch already",
        Saying::NameTwice => "is declared a second time in its block, or defined a second time",
        Saying::Return =>
            "gives a value in a function of type void, or none in a function of another type",
        Saying::NoLoop => "stands in no loop, nor break in a switch",
        Saying::NoFit =>
            "does not fit here: look for an array or a void call as a value, a value that is set, or no constant",
        Saying::Arguments => "is called with too few or too many arguments",
        Saying::Main => "no function int main(void) with a body is defined",
        Saying::Scalars =>
            "is the 65th variable of its function without brackets, and 64 are the most: use an array",
        Saying::Parameters =>
            "is the ninth parameter, and eight are the most: use an array or global variables",
        Saying::Temporaries =>
            "begins an expression that needs more than 16 values at once: keep parts of it in variables",
        Saying::Large =>
            "is too large: an array, and all globals together, have 1,048,576 bytes at most",
        Saying::Undefined =>
            "is declared, and the text defines it nowhere: write its body, or call nothing of this name",
        Saying::Late =>
            "is declared behind this place alone: write its prototype or its definition before it",
        Saying::Near => "is not declared before this place: the nearest name that is declared is",
        Saying::NearFunction =>
            "is called, and the text has no function of this name: the nearest name that is declared is",
        Saying::Semicolon =>
            "does not stand here: wanted ; behind the expression or the statement before it",
        Saying::RightParen => "does not stand here: wanted ) behind the expression before it",
        Saying::RightBracket => "does not stand here: wanted ] behind the expression before it",
        Saying::LastBrace => "ends the text too early: wanted } behind it",
        Saying::NotOpened =>
            "closes nothing that is open: look for one too many, or one that is missing before it",
        Saying::NoType =>
            "stands behind a name that is no type: write int, char, short or long, also with unsigned",
        Saying::Untyped =>
            "has no type before it: write int, char, short or long, or void for a function without a value",
    }
}
