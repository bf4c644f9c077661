//! What the functions that print a number write (C17 7.21.6.1).

ghost use Rattle.library_laws.specs.Numerals.{DecimalsAreNumerals, NumeralsAreDigits};
ghost use Rattle.library_laws.specs.Printing.{CountsDigits, Fills, PrintsCharacter, PrintsDigits};
ghost use Rattle.library_laws.specs.Printing.{PrintsHexadecimal, PrintsSigned, PrintsUnsigned};

/// `print.u` writes the decimal numeral of each unsigned long, and gives its length.
pub fn unsigned_is_printed()
    ensures law { PrintsUnsigned }
{}

/// `print.d` writes that of each long, behind `-` where it is negative.
pub fn signed_is_printed()
    ensures law { PrintsSigned }
{}

/// `print.x` writes the hexadecimal numeral of each unsigned long.
pub fn hexadecimal_is_printed()
    ensures law { PrintsHexadecimal }
{}

/// `print.digits` writes the digits of each unsigned long in a base, with letters from 10 on, and none for 0.
pub fn digits_are_printed()
    ensures law { PrintsDigits }
{}

/// `print.fill` writes a character so many times.
pub fn characters_are_filled_in()
    ensures law { Fills }
{}

/// `print.char` writes a character in a field, which is padded by spaces in front or behind.
pub fn characters_are_padded()
    ensures law { PrintsCharacter }
{}

/// `print.size` counts the digits of each unsigned long in a base, none for 0, and writes nothing.
pub fn digits_are_counted()
    ensures law { CountsDigits }
{}

/// The digits of a numeral stand for its number, each below the base, and the first is not 0.
pub fn numerals_stand_for_numbers()
    ensures law { NumeralsAreDigits }
{}

/// The decimal numeral is the one in base 10, but for 0, which has no digit there.
pub fn decimals_are_numerals()
    ensures law { DecimalsAreNumerals }
{}
