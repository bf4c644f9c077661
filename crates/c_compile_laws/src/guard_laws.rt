ghost use Rattle.c_compile_laws.specs.inside.GuardLaws.{CompletesGuarded, ConvertsGuarded, MachinesGuarded};
ghost use Rattle.c_compile_laws.specs.inside.GuardLaws.{PlacesGuarded, ProgramsGuarded, ResolvesGuarded};
ghost use Rattle.c_compile_laws.specs.inside.GuardLaws.{TargetsGuarded};

/// A converted block has at least as many guarded nodes other than branches as the narrowed block has
/// filled if-items.
pub fn converting_guards_filled_ifs()
    ensures { ConvertsGuarded }
{}

/// A completed block has at least as many of them as the block.
pub fn completing_keeps_guards()
    ensures { CompletesGuarded }
{}

/// The machine block of a flow block has at least as many guarded instructions other than branches.
pub fn targeting_keeps_guards()
    ensures { TargetsGuarded }
{}

/// Instructions in other slots are no fewer.
pub fn placing_keeps_guards()
    ensures { PlacesGuarded }
{}

/// So a machine block in any slots has at least as many guarded instructions as the narrowed block has filled
/// if-items.
pub fn machine_blocks_guard_filled_ifs()
    ensures { MachinesGuarded }
{}

/// Resolved immediates change nothing of them.
pub fn resolving_keeps_guards()
    ensures { ResolvesGuarded }
{}

/// Where each machine block has as many guarded instructions as its narrowed block has filled if-items, so have
/// all of them, once labels are resolved.
pub fn programs_guard_filled_ifs()
    ensures { ProgramsGuarded }
{}
