//! The typing relation and the definitions that the code answers by.

ghost use Rattle.std.specs.Prelude.{◌≡◌, ◌↔◌, ◌⊎◌, Some, None, Ok, Err};
ghost use Rattle.c_tree.specs.declared.tree.Stmt.{Stmt};
ghost use Rattle.c_tree.specs.declared.tree.Program.{Program};
ghost use Rattle.c_tree.specs.declared.typed.TypedStmt.{TypedStmt};
ghost use Rattle.c_tree.specs.declared.typed.TypedProgram.{TypedProgram};
ghost use Rattle.c_type_expr.specs.declared.fault.TypeFault.{TypeFault};
ghost use Rattle.c_type_expr.specs.declared.fault.TypeFault.TheVariants.{Memory};
ghost use Rattle.c_type_expr.specs.inside.Says.{Says};
ghost use Rattle.c_type.specs.declared.state.State.{State};
ghost use Rattle.c_type.specs.declared.state.Around.{Around};
ghost use Rattle.c_type.specs.Statements.{part};
ghost use Rattle.c_type.specs.inside.Programs.{program_fault, program_tree};
ghost use Rattle.c_type_rules.specs.Statements.{Types};
ghost use Rattle.c_type_rules.specs.Units.{Accepts};
ghost use Rattle.c_type_rules.specs.FirstFaults.{UnitFails};

/// The rules give a statement a typed tree and a state after it exactly where nothing in it fails,
/// and then these alone.
pub fn statements_are_exact()
    ensures { (b : Around) (v : State) (s : Stmt) (t : TypedStmt) (w : State) → Types b v s t w
        ↔ (((part s).fault b v ≡ None) × (t ≡ (part s).tree v) × (w ≡ (part s).after v)) }
{}

/// The rules accept a translation unit with a typed program exactly where nothing in it fails, and
/// then with that one alone.
pub fn units_are_exact()
    ensures { (p : Program) (t : TypedProgram) → Accepts p t
        ↔ ((program_fault p ≡ None) × (t ≡ program_tree p)) }
{}

/// What the typing answers to a unit is what the rules say: a typed program that it gives is that
/// with which they accept the unit, and to a unit that they accept it answers no error but for want
/// of memory.
pub fn answers_are_exact()
    ensures ok { (p : Program) (t : TypedProgram)
        → Says (program_fault p) (program_tree p) (Ok t) → Accepts p t }
    ensures err { (p : Program) (t : TypedProgram) (e : TypeFault) → Accepts p t
        → Says (program_fault p) (program_tree p) (Err e) → e ≡ Memory }
{}

/// A unit that the rules do not accept has one fault: that of the first node in the order of the text
/// that has no types where all before it have, operands before their node and a `main` that is missing
/// last. It is the fault that the typing answers.
pub fn faults_are_exact()
    ensures exact { (p : Program) (f : TypeFault) → UnitFails p f ↔ (program_fault p ≡ Some f) }
    ensures apart { (p : Program) (t : TypedProgram) (f : TypeFault) → Accepts p t → UnitFails p f
        → ⊥ }
    ensures some { (p : Program)
        → ((t : TypedProgram) × Accepts p t) ⊎ ((f : TypeFault) × UnitFails p f) }
{}
