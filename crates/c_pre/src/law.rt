//! Laws of the tokens of texts, over their definition alone; each function's clause is the law.
ghost use Rattle.c_pre.specs.Laws.{PlainTextsStay, TextsAreShort};

/// A text without directives means what it means without the preprocessor. It does nothing when it runs.
pub fn plain_texts_stay()
    ensures law { PlainTextsStay }
{}

/// A text has at most as many tokens as there may be. It does nothing when it runs.
pub fn texts_are_short()
    ensures law { TextsAreShort }
{}
