//! Which typed functions the library's functions that print numbers are: their tokens spell an item, and this item is
//! typed as `library_laws` has the function.

ghost use Rattle.library_trees.specs.Rows.{TableHasTokens};
ghost use Rattle.library_trees.specs.Typings.{DigitsIsTyped, FillIsTyped, HexadecimalIsTyped, SignedIsTyped};
ghost use Rattle.library_trees.specs.Typings.{SizeIsTyped, UnsignedIsTyped};

/// That of `print.u`.
pub fn unsigned_is_typed()
    ensures law { UnsignedIsTyped }
{}

/// That of `print.d`.
pub fn signed_is_typed()
    ensures law { SignedIsTyped }
{}

/// That of `print.x`.
pub fn hexadecimal_is_typed()
    ensures law { HexadecimalIsTyped }
{}

/// That of `print.digits`.
pub fn digits_is_typed()
    ensures law { DigitsIsTyped }
{}

/// That of `print.fill`.
pub fn fill_is_typed()
    ensures law { FillIsTyped }
{}

/// That of `print.size`.
pub fn size_is_typed()
    ensures law { SizeIsTyped }
{}

/// The rows of the library's table have these tokens.
pub fn table_has_tokens()
    ensures law { TableHasTokens }
{}
