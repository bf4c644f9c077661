//! What a token is in a run of keywords.

use crate::named::Named;

/// What stands for a run: `static` or not, and a type.
#[derive(Clone, Copy, Debug, PartialEq, Eq)]
pub struct Spelled {
    pub is_static: bool,
    pub named: Named,
}

/// What a token is in a run of keywords: none of it; one of a run that stays; the first of one that changes, for
/// which these words stand; a further one of such a run.
#[derive(Clone, Copy, Debug, PartialEq, Eq)]
pub enum Stand {
    Apart,
    Kept,
    Spelled(Spelled),
    Gone,
}
