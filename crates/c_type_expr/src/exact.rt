//! The typing relation and what the code answers.

ghost use Rattle.std.specs.Prelude.{◌≡◌, ◌↔◌, None};
ghost use Rattle.c_tree.specs.declared.tree.Expr.{Expr};
ghost use Rattle.c_tree.specs.declared.typed.TypedExpr.{TypedExpr};
ghost use Rattle.c_type_expr.specs.Scope.{Scope};
ghost use Rattle.c_type_expr.specs.declared.role.Role.{Role};
ghost use Rattle.c_type_expr.specs.Faults.{fault};
ghost use Rattle.c_type_expr.specs.Trees.{tree};
ghost use Rattle.c_type_expr.specs.Typed.{Typed};

/// The rules give an expression a typed tree exactly where no node of it fails, and then one alone.
pub fn typing_is_exact()
    ensures { (G : Scope) (r : Role) (e : Expr) (t : TypedExpr) → Typed G r e t
        ↔ ((fault e G r ≡ None) × (t ≡ tree e G)) }
{}
