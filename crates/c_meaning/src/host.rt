//! How many bytes of the host's stack an evaluation takes: each function of the recursion takes its frame off the
//! depth that is left, by the larger of its sizes in the builds that docs/SPEED.md names ("The host's stack").

/// How deep expressions and statements are evaluated at once, those of the functions that are called among them.
/// No proof goes by these numbers but that each is at least 1.
pub const MOST_DEPTH: u32 = 4_000_000;

/// An expression that is no leaf.
pub const EXPRESSION: u32 = 176;

/// An operation besides that has a function of its own.
pub const OPERATION: u32 = 160;

/// `++` and `--` on an element besides.
pub const BUMP: u32 = 320;

/// A call besides.
pub const CALL: u32 = 288;

/// A statement.
pub const STATEMENT: u32 = 64;

/// An `if`, a declaration, and statements one after another, besides.
pub const PLAIN: u32 = 64;

/// A loop besides, its declarations, and its turns.
pub const LOOP: u32 = 256;

/// A switch besides, and its sections.
pub const SWITCH: u32 = 176;
