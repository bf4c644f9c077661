//! Words of raw tokens, and the words of their program, or the fault with its offset. The word of number n stands at
//! offset 10 n. A directive's line ends at `;;`.

pub type Row = (&'static [&'static str], &'static str);

/// What headers make known.
pub const HEADER_ROWS: &[Row] = &[
    (&["<stdbool.h>", "true", "+", "false"], "1 + 0"),
    (&["true", "<stdbool.h>", "true"], "true 1"),
    (&["<stdbool.h>", "bool", "A"], "_Bool A"),
    (&["<stdbool.h>", "#undef", "bool", ";;", "bool"], "bool"),
    (&["<stdlib.h>", "EXIT_SUCCESS", "EXIT_FAILURE"], "0 1"),
    (&["<string.h>", "<stddef.h>", "size_t"], "key long"),
    (&["<stdint.h>", "int16_t", "A"], "key A"),
    (&["<stdbool.h>", "<stdbool.h>", "true"], "1"),
    (&["<limits.h>", "CHAR_BIT", "MB_LEN_MAX"], "8 1"),
    (
        &["<limits.h>", "LLONG_MIN", "ULLONG_MAX"],
        "9223372036854775808 18446744073709551615",
    ),
    (
        &["<stdint.h>", "INT8_MIN", "UINT_FAST16_MAX", "SIZE_MAX"],
        "18446744073709551488 18446744073709551615 18446744073709551615",
    ),
    (
        &["<stdint.h>", "UINT16_MAX", "INT_LEAST32_MAX", "PTRDIFF_MAX"],
        "65535 2147483647 9223372036854775807",
    ),
    (&["<stddef.h>", "SIZE_MAX"], "SIZE_MAX"),
];

pub const ROWS: &[Row] = &[
    // No directive.
    (&["int", "A", ";"], "int A ;"),
    (&[], ""),
    // 6.10.3: a name is replaced from its line on, and no longer than to its #undef.
    (&["A", "#define", "A", "1", ";;", "A", "B"], "A 1 B"),
    (
        &["#define", "A", "1", ";;", "A", "#undef", "A", ";;", "A"],
        "1 A",
    ),
    (&["#undef", "A", ";;", "A"], "A"),
    (&["#define", "A", ";;", "A", "B", "A"], "B"),
    (
        &["#define", "A", "1", "+", "2", ";;", "A", "*", "A"],
        "1 + 2 * 1 + 2",
    ),
    (&["#define", "A", "1"], ""),
    // 6.10.3, paragraph 2: the same body once more, and another one.
    (
        &[
            "#define", "A", "1", "+", "B", ";;", "#define", "A", "1", "+", "B", ";;", "A",
        ],
        "1 + B",
    ),
    (
        &["#define", "A", "1", ";;", "#define", "A", "2", ";;"],
        "Redefined 50",
    ),
    (
        &["#define", "A", "1", ";;", "#define", "A", ";;"],
        "Redefined 50",
    ),
    (
        &["#define", "A", ";;", "#define", "A", "1", ";;"],
        "Redefined 40",
    ),
    (
        &["#define", "A", "1", ";;", "#define", "A", "1", "1", ";;"],
        "Redefined 50",
    ),
    (
        &["#define", "A", "B", ";;", "#define", "A", "C", ";;"],
        "Redefined 50",
    ),
    (
        &["#define", "A", "+", ";;", "#define", "A", "*", ";;"],
        "Redefined 50",
    ),
    (
        &["#define", "A", "int", ";;", "#define", "A", "long", ";;"],
        "Redefined 50",
    ),
    (
        &[
            "#define", "A", "int", ";;", "#define", "A", "int", ";;", "A",
        ],
        "int",
    ),
    (
        &[
            "#define", "A", "1", ";;", "#undef", "A", ";;", "#define", "A", "2", ";;", "A",
        ],
        "2",
    ),
    // 6.10.3.4: a body is read again, where its own name stays.
    (&["#define", "A", "A", "+", "1", ";;", "A"], "A + 1"),
    (
        &[
            "#define", "A", "B", "1", ";;", "#define", "B", "A", "2", ";;", "A", ";", "B",
        ],
        "A 2 1 ; B 1 2",
    ),
    (
        &["#define", "A", "B", ";;", "#define", "B", "2", ";;", "A"],
        "2",
    ),
    (
        &[
            "#define", "B", "2", ";;", "#define", "A", "B", ";;", "#undef", "B", ";;", "A",
        ],
        "B",
    ),
    (
        &[
            "#define", "A", "B", "B", ";;", "#define", "B", "C", "C", ";;", "#define", "C", "1",
            ";;", "A",
        ],
        "1 1 1 1",
    ),
    // 6.10.3.5, example 3: the lines with names alone.
    (
        &[
            "#define", "x", "3", ";;", "#undef", "x", ";;", "#define", "x", "2", ";;", "#define",
            "z", "z", ";;", "x", "+", "z",
        ],
        "2 + z",
    ),
    // 6.10.1: groups.
    (
        &[
            "#ifdef", "A", ";;", "1", "#else", ";;", "2", "#endif", ";;", "3",
        ],
        "2 3",
    ),
    (
        &[
            "#ifndef", "A", ";;", "1", "#else", ";;", "2", "#endif", ";;", "3",
        ],
        "1 3",
    ),
    (
        &[
            "#define", "A", ";;", "#ifdef", "A", ";;", "1", "#else", ";;", "2", "#endif", ";;", "3",
        ],
        "1 3",
    ),
    (
        &[
            "#define", "A", ";;", "#ifndef", "A", ";;", "1", "#else", ";;", "2", "#endif", ";;",
        ],
        "2",
    ),
    (
        &[
            "#define", "A", ";;", "#undef", "A", ";;", "#ifdef", "A", ";;", "1", "#endif",
        ],
        "",
    ),
    (
        &[
            "#ifdef", "A", ";;", "1", "#ifdef", "B", ";;", "2", "#endif", ";;", "3", "#endif",
            ";;", "4",
        ],
        "4",
    ),
    (
        &[
            "#ifndef", "A", ";;", "1", "#ifdef", "B", ";;", "2", "#endif", ";;", "3", "#endif",
            ";;", "4",
        ],
        "1 3 4",
    ),
    (
        &[
            "#ifdef", "A", ";;", "#ifndef", "B", ";;", "1", "#else", ";;", "2", "#endif", ";;",
            "3", "#endif", ";;",
        ],
        "",
    ),
    (
        &[
            "#ifdef", "A", ";;", "#define", "B", "1", ";;", "#endif", ";;", "B",
        ],
        "B",
    ),
    (
        &[
            "#define", "B", "1", ";;", "#ifdef", "A", ";;", "#undef", "B", ";;", "#endif", ";;",
            "B",
        ],
        "1",
    ),
    // What is not read is not looked at (6.10.1, paragraph 6).
    (
        &[
            "#ifdef", "A", ";;", "#define", "1", ";;", "#ifdef", ";;", "#else", "1", ";;",
            "#endif", "1", ";;", "#endif",
        ],
        "",
    ),
    // Groups that do not fit.
    (&["#else", ";;"], "Unbalanced 0"),
    (&["1", "#endif", ";;"], "Unbalanced 10"),
    (&["#ifdef", "A", ";;", "1"], "Unbalanced 0"),
    (
        &["#ifdef", "A", ";;", "#ifdef", "B", ";;", "#endif", ";;"],
        "Unbalanced 0",
    ),
    (&["#ifdef", "A", ";;", "#ifdef", "B", ";;"], "Unbalanced 30"),
    (
        &[
            "#ifdef", "A", ";;", "#else", ";;", "#else", ";;", "#endif", ";;",
        ],
        "Unbalanced 50",
    ),
    (
        &["#ifdef", "A", ";;", "#endif", ";;", "#endif", ";;"],
        "Unbalanced 50",
    ),
    // Lines that are none.
    (&["#define", ";;"], "BadDefine 0"),
    (&["1", "#define", "1", ";;"], "BadDefine 10"),
    (&["#define", "int", "long", ";;"], "BadDefine 0"),
    (&["#define"], "BadDefine 0"),
    (&["#undef", ";;"], "BadDefine 0"),
    (&["#undef", "A", "B", ";;"], "BadDefine 0"),
    (&["#ifdef", ";;", "#endif", ";;"], "BadDefine 0"),
    (&["#ifdef", "A", "B", ";;", "#endif", ";;"], "BadDefine 0"),
    (&["#ifndef", "1", ";;", "#endif", ";;"], "BadDefine 0"),
    (
        &["#ifdef", "A", ";;", "#else", "A", ";;", "#endif", ";;"],
        "BadDefine 30",
    ),
    (&["#ifdef", "A", ";;", "#endif", "A", ";;"], "BadDefine 30"),
    // A token behind the name at once (6.10.3, paragraph 3).
    (&["#define", "LongName10", "(", ";;"], "BadDefine 0"),
    (&["#define", "LongName9", "(", ";;", "LongName9"], "("),
    // Headers.
    (
        &["#define", "true", "0", ";;", "<stdbool.h>"],
        "Redefined 40",
    ),
    (
        &["<stdbool.h>", "#define", "true", "0", ";;"],
        "Redefined 20",
    ),
    (
        &["#ifdef", "A", ";;", "<stdbool.h>", "#endif", ";;", "true"],
        "true",
    ),
    (
        &["<limits.h>", "#ifdef", "INT_MAX", ";;", "1", "#endif", ";;"],
        "1",
    ),
];

/// The same of string literals, each a word that begins with `"` alone.
pub const LITERAL_ROWS: &[Row] = &[
    // A literal is no macro's name.
    (&["#define", "\"a", "1", ";;"], "BadDefine 0"),
    (&["#undef", "\"a", ";;"], "BadDefine 0"),
    (&["#ifdef", "\"a", ";;", "#endif", ";;"], "BadDefine 0"),
    // 6.4.5: literals side by side are one, and literals alike are one array.
    (
        &["int", "A", ";", "\"a", "\"b", ";", "\"ab"],
        "char \"ab [ ] = { 97 , 98 , 0 } ; int A ; \"ab ; \"ab",
    ),
    (
        &["#define", "A", "\"a", ";;", "A", "\"b"],
        "char \"ab [ ] = { 97 , 98 , 0 } ; \"ab",
    ),
    // 6.7.9: literals that initialise an array.
    (
        &["A", "[", "]", "=", "\"ab", ";"],
        "A [ ] = { 97 , 98 , 0 } ;",
    ),
    (
        &["A", "=", "{", "\"a", ",", "\"", "}", ";"],
        "A = { { 97 , 0 } , { 0 } } ;",
    ),
    (
        &["A", "=", "\"a", "[", "0", "]", ";"],
        "char \"a [ ] = { 97 , 0 } ; A = \"a [ 0 ] ;",
    ),
    // 6.7.9: a list with designators stands without them.
    (
        &[
            "#define", "A", "2", ";;", "int", "B", "[", "]", "=", "{", "[", "A", "]", "=", "3",
            "}", ";",
        ],
        "int B [ ] = { 0 , 0 , 3 } ;",
    ),
    // 6.2.7: another declaration tells the size.
    (
        &[
            "int", "A", "[", "]", ";", "int", "A", "[", "2", "]", "=", "{", "1", "}", ";",
        ],
        "int A [ 2 ] = { 1 } ;",
    ),
    // 6.5.3.4: the size of what stands behind a sign.
    (
        &[
            "long", "A", "[", "2", "]", ";", "int", "B", "=", "sizeof", "+", "A", "[", "1", "+",
            "1", "]", ";",
        ],
        "long A [ 2 ] ; int B = 8 ;",
    ),
    // The list of a call is none.
    (
        &["A", "=", "{", "B", "(", "\"a", ")", "}"],
        "char \"a [ ] = { 97 , 0 } ; A = { B ( \"a ) }",
    ),
];
