//! Lists of tokens with `short`, with a `switch` and with arrays of two sizes, each with its answer.

use crate::parse_tests::{
    A, ASSIGN, Answer, BEGIN, CASE, CHAR, CLOSE, COLON, COMMA, DEFAULT, ELSE, END, IF, INT, LEFT,
    OPEN, One, RIGHT, Row, SEMICOLON, SHORT, SWITCH, UNSIGNED,
};

pub const SECTIONS: &[Row] = &[
    (
        &[
            INT, A, OPEN, CLOSE, BEGIN, SWITCH, OPEN, One, CLOSE, BEGIN, END, END,
        ],
        Answer::Items(1),
    ),
    (
        &[
            INT, A, OPEN, CLOSE, BEGIN, SWITCH, OPEN, One, CLOSE, BEGIN, CASE, One, COLON, DEFAULT,
            COLON, SEMICOLON, BEGIN, END, CASE, One, COLON, IF, OPEN, One, CLOSE, SEMICOLON, END,
            END,
        ],
        Answer::Items(1),
    ),
    (
        &[
            INT, A, OPEN, CLOSE, BEGIN, SWITCH, OPEN, One, CLOSE, SEMICOLON, END,
        ],
        Answer::Syntax(10),
    ),
    // a statement without a label before it
    (
        &[
            INT, A, OPEN, CLOSE, BEGIN, SWITCH, OPEN, One, CLOSE, BEGIN, SEMICOLON, END, END,
        ],
        Answer::Syntax(11),
    ),
    // a label without a statement
    (
        &[
            INT, A, OPEN, CLOSE, BEGIN, SWITCH, OPEN, One, CLOSE, BEGIN, CASE, One, COLON, END, END,
        ],
        Answer::Syntax(14),
    ),
    // a declaration
    (
        &[
            INT, A, OPEN, CLOSE, BEGIN, SWITCH, OPEN, One, CLOSE, BEGIN, DEFAULT, COLON, INT, A,
            SEMICOLON, END, END,
        ],
        Answer::Syntax(13),
    ),
    (
        &[
            INT, A, OPEN, CLOSE, BEGIN, SWITCH, OPEN, One, CLOSE, BEGIN, DEFAULT, COLON, SEMICOLON,
            INT, A, SEMICOLON, END, END,
        ],
        Answer::Syntax(14),
    ),
    // a case without its constant
    (
        &[
            INT, A, OPEN, CLOSE, BEGIN, SWITCH, OPEN, One, CLOSE, BEGIN, CASE, COLON, SEMICOLON,
            END, END,
        ],
        Answer::Syntax(12),
    ),
    (
        &[
            INT, A, OPEN, CLOSE, BEGIN, SWITCH, OPEN, One, CLOSE, BEGIN, CASE, One, COMMA, One,
            COLON, SEMICOLON, END, END,
        ],
        Answer::Syntax(13),
    ),
    // an `else` behind a section's statement that is no `if`
    (
        &[
            INT, A, OPEN, CLOSE, BEGIN, SWITCH, OPEN, One, CLOSE, BEGIN, DEFAULT, COLON, SEMICOLON,
            ELSE, SEMICOLON, END, END,
        ],
        Answer::Syntax(14),
    ),
    // a label in no switch, and in a statement of a section
    (
        &[INT, A, OPEN, CLOSE, BEGIN, DEFAULT, COLON, SEMICOLON, END],
        Answer::Syntax(6),
    ),
    (
        &[
            INT, A, OPEN, CLOSE, BEGIN, SWITCH, OPEN, One, CLOSE, BEGIN, DEFAULT, COLON, BEGIN,
            CASE, One, COLON, SEMICOLON, END, END, END,
        ],
        Answer::Syntax(14),
    ),
];

pub const ARRAYS: &[Row] = &[
    (&[SHORT, A, SEMICOLON], Answer::Items(1)),
    (&[UNSIGNED, SHORT, INT, A, SEMICOLON], Answer::Items(1)),
    (&[SHORT, CHAR, A, SEMICOLON], Answer::Syntax(2)),
    (&[CHAR, SHORT, A, SEMICOLON], Answer::Syntax(2)),
    (
        &[INT, A, LEFT, One, RIGHT, LEFT, One, RIGHT, SEMICOLON],
        Answer::Items(1),
    ),
    (
        &[INT, A, LEFT, RIGHT, LEFT, One, RIGHT, SEMICOLON],
        Answer::Syntax(8),
    ),
    (
        &[INT, A, LEFT, One, RIGHT, LEFT, RIGHT, SEMICOLON],
        Answer::Syntax(7),
    ),
    (
        &[
            INT, A, LEFT, One, RIGHT, LEFT, One, RIGHT, LEFT, One, RIGHT, SEMICOLON,
        ],
        Answer::Syntax(9),
    ),
    (
        &[
            INT, A, LEFT, RIGHT, LEFT, One, RIGHT, ASSIGN, BEGIN, BEGIN, One, COMMA, END, COMMA,
            BEGIN, One, END, COMMA, END, SEMICOLON,
        ],
        Answer::Items(1),
    ),
    // a row without values, and one without braces
    (
        &[
            INT, A, LEFT, RIGHT, LEFT, One, RIGHT, ASSIGN, BEGIN, BEGIN, END, END, SEMICOLON,
        ],
        Answer::Syntax(11),
    ),
    (
        &[
            INT, A, LEFT, One, RIGHT, LEFT, One, RIGHT, ASSIGN, BEGIN, One, END, SEMICOLON,
        ],
        Answer::Syntax(11),
    ),
    // a row of an array with one size
    (
        &[
            INT, A, LEFT, One, RIGHT, ASSIGN, BEGIN, BEGIN, One, END, END, SEMICOLON,
        ],
        Answer::Syntax(8),
    ),
    (
        &[
            INT, A, OPEN, INT, A, LEFT, RIGHT, LEFT, One, RIGHT, CLOSE, SEMICOLON,
        ],
        Answer::Items(1),
    ),
    (
        &[
            INT, A, OPEN, INT, LEFT, One, RIGHT, LEFT, RIGHT, CLOSE, SEMICOLON,
        ],
        Answer::Syntax(9),
    ),
    (
        &[
            INT, A, OPEN, CLOSE, BEGIN, INT, A, LEFT, One, RIGHT, LEFT, One, RIGHT, COMMA, A,
            SEMICOLON, A, LEFT, One, RIGHT, LEFT, A, RIGHT, ASSIGN, One, SEMICOLON, END,
        ],
        Answer::Items(1),
    ),
    (
        &[
            INT, A, OPEN, CLOSE, BEGIN, INT, A, LEFT, RIGHT, LEFT, One, RIGHT, SEMICOLON, END,
        ],
        Answer::Syntax(9),
    ),
    // a third index
    (
        &[
            INT, A, OPEN, CLOSE, BEGIN, A, LEFT, One, RIGHT, LEFT, One, RIGHT, LEFT, One, RIGHT,
            SEMICOLON, END,
        ],
        Answer::Syntax(13),
    ),
];
