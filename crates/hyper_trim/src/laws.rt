ghost use Rattle.hyper_trim.specs.inside.Laws.{ClosedTablesNarrow, ForwardingIsSame, ForwardingTrims, TrimsCompose};

/// Whatever table was guessed: where it is closed, what it leaves of a program, with what outlasts each block, does
/// what the program does, and as many of its ifs are filled.
pub fn closed_tables_narrow()
    ensures { ClosedTablesNarrow }
{}

/// A block whose copies and constants are forwarded does the same from every machine.
pub fn forwarding_is_same()
    ensures { ForwardingIsSame }
{}

/// A program whose copies and constants are forwarded.
pub fn forwarding_trims()
    ensures { ForwardingTrims }
{}

/// One change after another.
pub fn trims_compose()
    ensures { TrimsCompose }
{}
