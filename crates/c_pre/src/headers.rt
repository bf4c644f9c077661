//! The names that headers make known.

ghost use Rattle.std.specs.Prelude.{◌≡◌, map};
ghost use Rattle.c_pre.specs.Headers as headers;

use c_lex::Header;
use c_tree::Kind;

/// The names of `<limits.h>` (C17 5.2.4.2.1), each with its value modulo 2^64 and its type.
const LIMITS: [(&[u8], u64, Kind); 19] = [
    (b"CHAR_BIT", 8, Kind::Int),
    (b"SCHAR_MIN", 0xFFFF_FFFF_FFFF_FF80, Kind::Int),
    (b"SCHAR_MAX", 0x7F, Kind::Int),
    (b"UCHAR_MAX", 0xFF, Kind::Int),
    (b"CHAR_MIN", 0xFFFF_FFFF_FFFF_FF80, Kind::Int),
    (b"CHAR_MAX", 0x7F, Kind::Int),
    (b"MB_LEN_MAX", 1, Kind::Int),
    (b"SHRT_MIN", 0xFFFF_FFFF_FFFF_8000, Kind::Int),
    (b"SHRT_MAX", 0x7FFF, Kind::Int),
    (b"USHRT_MAX", 0xFFFF, Kind::Int),
    (b"INT_MIN", 0xFFFF_FFFF_8000_0000, Kind::Int),
    (b"INT_MAX", 0x7FFF_FFFF, Kind::Int),
    (b"UINT_MAX", 0xFFFF_FFFF, Kind::UInt),
    (b"LONG_MIN", 0x8000_0000_0000_0000, Kind::Long),
    (b"LONG_MAX", 0x7FFF_FFFF_FFFF_FFFF, Kind::Long),
    (b"ULONG_MAX", 0xFFFF_FFFF_FFFF_FFFF, Kind::ULong),
    (b"LLONG_MIN", 0x8000_0000_0000_0000, Kind::Long),
    (b"LLONG_MAX", 0x7FFF_FFFF_FFFF_FFFF, Kind::Long),
    (b"ULLONG_MAX", 0xFFFF_FFFF_FFFF_FFFF, Kind::ULong),
];

/// The names of `<stdbool.h>` (C17 7.18) but for `bool`, which stands for a keyword.
const STDBOOL: [(&[u8], u64, Kind); 3] = [
    (b"true", 1, Kind::Int),
    (b"false", 0, Kind::Int),
    (b"__bool_true_false_are_defined", 1, Kind::Int),
];

/// The names of `<stdlib.h>` that are here (C17 7.22), but for its functions.
const STDLIB: [(&[u8], u64, Kind); 3] = [
    (b"EXIT_FAILURE", 1, Kind::Int),
    (b"EXIT_SUCCESS", 0, Kind::Int),
    (b"RAND_MAX", 0x7FFF, Kind::Int),
];

/// The names of `<stdint.h>` (C17 7.20.2, 7.20.3).
const STDINT: [(&[u8], u64, Kind); 45] = [
    (b"INT8_MIN", 0xFFFF_FFFF_FFFF_FF80, Kind::Int),
    (b"INT8_MAX", 0x7F, Kind::Int),
    (b"UINT8_MAX", 0xFF, Kind::Int),
    (b"INT16_MIN", 0xFFFF_FFFF_FFFF_8000, Kind::Int),
    (b"INT16_MAX", 0x7FFF, Kind::Int),
    (b"UINT16_MAX", 0xFFFF, Kind::Int),
    (b"INT32_MIN", 0xFFFF_FFFF_8000_0000, Kind::Int),
    (b"INT32_MAX", 0x7FFF_FFFF, Kind::Int),
    (b"UINT32_MAX", 0xFFFF_FFFF, Kind::UInt),
    (b"INT64_MIN", 0x8000_0000_0000_0000, Kind::Long),
    (b"INT64_MAX", 0x7FFF_FFFF_FFFF_FFFF, Kind::Long),
    (b"UINT64_MAX", 0xFFFF_FFFF_FFFF_FFFF, Kind::ULong),
    (b"INT_LEAST8_MIN", 0xFFFF_FFFF_FFFF_FF80, Kind::Int),
    (b"INT_LEAST8_MAX", 0x7F, Kind::Int),
    (b"UINT_LEAST8_MAX", 0xFF, Kind::Int),
    (b"INT_LEAST16_MIN", 0xFFFF_FFFF_FFFF_8000, Kind::Int),
    (b"INT_LEAST16_MAX", 0x7FFF, Kind::Int),
    (b"UINT_LEAST16_MAX", 0xFFFF, Kind::Int),
    (b"INT_LEAST32_MIN", 0xFFFF_FFFF_8000_0000, Kind::Int),
    (b"INT_LEAST32_MAX", 0x7FFF_FFFF, Kind::Int),
    (b"UINT_LEAST32_MAX", 0xFFFF_FFFF, Kind::UInt),
    (b"INT_LEAST64_MIN", 0x8000_0000_0000_0000, Kind::Long),
    (b"INT_LEAST64_MAX", 0x7FFF_FFFF_FFFF_FFFF, Kind::Long),
    (b"UINT_LEAST64_MAX", 0xFFFF_FFFF_FFFF_FFFF, Kind::ULong),
    (b"INT_FAST8_MIN", 0xFFFF_FFFF_FFFF_FF80, Kind::Int),
    (b"INT_FAST8_MAX", 0x7F, Kind::Int),
    (b"UINT_FAST8_MAX", 0xFF, Kind::Int),
    (b"INT_FAST16_MIN", 0x8000_0000_0000_0000, Kind::Long),
    (b"INT_FAST16_MAX", 0x7FFF_FFFF_FFFF_FFFF, Kind::Long),
    (b"UINT_FAST16_MAX", 0xFFFF_FFFF_FFFF_FFFF, Kind::ULong),
    (b"INT_FAST32_MIN", 0x8000_0000_0000_0000, Kind::Long),
    (b"INT_FAST32_MAX", 0x7FFF_FFFF_FFFF_FFFF, Kind::Long),
    (b"UINT_FAST32_MAX", 0xFFFF_FFFF_FFFF_FFFF, Kind::ULong),
    (b"INT_FAST64_MIN", 0x8000_0000_0000_0000, Kind::Long),
    (b"INT_FAST64_MAX", 0x7FFF_FFFF_FFFF_FFFF, Kind::Long),
    (b"UINT_FAST64_MAX", 0xFFFF_FFFF_FFFF_FFFF, Kind::ULong),
    (b"INTPTR_MIN", 0x8000_0000_0000_0000, Kind::Long),
    (b"INTPTR_MAX", 0x7FFF_FFFF_FFFF_FFFF, Kind::Long),
    (b"UINTPTR_MAX", 0xFFFF_FFFF_FFFF_FFFF, Kind::ULong),
    (b"INTMAX_MIN", 0x8000_0000_0000_0000, Kind::Long),
    (b"INTMAX_MAX", 0x7FFF_FFFF_FFFF_FFFF, Kind::Long),
    (b"UINTMAX_MAX", 0xFFFF_FFFF_FFFF_FFFF, Kind::ULong),
    (b"PTRDIFF_MIN", 0x8000_0000_0000_0000, Kind::Long),
    (b"PTRDIFF_MAX", 0x7FFF_FFFF_FFFF_FFFF, Kind::Long),
    (b"SIZE_MAX", 0xFFFF_FFFF_FFFF_FFFF, Kind::ULong),
];

/// The names that a header makes known.
#[tactic(auto, unfolding(crate::specs::Headers::limits, crate::specs::Headers::stdint))]
pub fn names_of(header: Header) -> &'static [(&'static [u8], u64, Kind)]
    ensures { map (λ row. (row.0.now, row.1, row.2)) result.now ≡ headers.names_of header }
{
    match header {
        Header::Limits => &LIMITS,
        Header::Stdbool => &STDBOOL,
        Header::Stdlib => &STDLIB,
        Header::Stdint => &STDINT,
        Header::Stdio | Header::Stddef | Header::String | Header::Ctype => &[],
    }
}

/// Does a header give types?
pub fn gives_types(header: Header) -> bool
    ensures { result ≡ headers.gives_types header }
{
    match header {
        Header::Stddef | Header::Stdint => true,
        _ => false,
    }
}
