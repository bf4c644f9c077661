//! What expressions are wanted for.

ghost use Rattle.std.specs.Prelude.{◌≡◌};
ghost use Rattle.c_type_expr.specs.Roles as roles;

use c_tree::Kind;

/// Whether two second sizes are one, or both missing.
pub fn same_row(a: Option<u32>, b: Option<u32>) -> bool
    ensures { result ≡ roles.same_row a b }
{
    match (a, b) {
        (None, None) => true,
        (Some(m), Some(n)) => m == n,
        _ => false,
    }
}

/// What an expression is wanted for.
#[derive(Clone, Copy, Debug, PartialEq, Eq)]
pub enum Role {
    /// Its value is used.
    Value,
    /// Its value is not used, so it may be a call that gives none.
    Free,
    /// It is written to.
    Written,
    /// It is the argument of an array parameter, of this type and second size.
    Array { kind: Kind, row: Option<u32> },
    /// It is an argument that no parameter takes.
    Surplus,
}

impl Role {
    /// Whether a value may stand there that is no scalar or element.
    pub fn takes_value(self) -> bool
        ensures { result ≡ roles.takes_value self }
    {
        match self {
            Role::Written | Role::Array { .. } => false,
            _ => true,
        }
    }

    /// Whether a scalar or an element may stand there.
    pub fn takes_element(self) -> bool
        ensures { result ≡ roles.takes_element self }
    {
        match self {
            Role::Array { .. } => false,
            _ => true,
        }
    }

    /// Whether a call that gives no value may stand there.
    pub fn takes_void(self) -> bool
        ensures { result ≡ roles.takes_void self }
    {
        match self {
            Role::Free => true,
            _ => false,
        }
    }

    /// Whether the name of an array of a kind and a second size may stand there.
    pub fn takes_array(self, kind: Kind, row: Option<u32>) -> bool
        ensures { result ≡ roles.takes_array kind row self }
    {
        match self {
            Role::Array {
                kind: wanted,
                row: wanted_row,
            } => kind == wanted && same_row(row, wanted_row),
            Role::Surplus => true,
            _ => false,
        }
    }
}
