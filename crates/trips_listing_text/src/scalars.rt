//! The names of a function's scalars.

ghost use Rattle.std.specs.Prelude.{◌≡◌, ◌++◌, ◌∷◌, [], map, option_map, OnOk, IfOk};
ghost use Rattle.trips_listing_text.specs.Scalars.{all_names, declared_names, else_names, names_of, names_in_node};
ghost use Rattle.trips_listing_text.specs.Scalars.{names_in_first, names_in_section, parameter_name, parameter_names};
ghost use Rattle.trips_listing_text.specs.Scalars.{scalar_names};

use base::{Boxed, Items, Memory};
use c_tree::{ArraySize, ForInit, Param, Section, Stmt, StmtNode, Word};
use std::alloc::Global;

/// A name more.
fn put_name(names: &mut Items<Items<u8>>, alloc: Global, name: &[u8]) -> Result<(), Memory>
    ensures { OnOk result (names.new ≡ names.old ++ name.now ∷ []) }
{
    names.push(Items::from_slice(alloc, name)?)?;
    Ok(())
}

/// The name of what is declared, where it is a scalar.
fn put_declared(
    names: &mut Items<Items<u8>>,
    alloc: Global,
    name: &Word,
    size: &ArraySize,
) -> Result<(), Memory>
    ensures { OnOk result (names.new ≡ names.old ++ declared_names name.now size.now) }
{
    match size {
        ArraySize::Scalar => put_name(names, alloc, name.as_slice()),
        _ => Ok(()),
    }
}

/// The names in several statements.
#[cycle(names)]
fn put_all(names: &mut Items<Items<u8>>, alloc: Global, all: &[Stmt]) -> Result<(), Memory>
    ensures { OnOk result (names.new ≡ names.old ++ all_names (map names_of all.now)) }
{
    for s in all {
        put_stmt(names, alloc, s)?;
    }
    Ok(())
}

/// Those behind an `else`, if there is one.
#[cycle(names)]
fn put_else(
    names: &mut Items<Items<u8>>,
    alloc: Global,
    no: &Option<Boxed<Stmt>>,
) -> Result<(), Memory>
    ensures { OnOk result (names.new ≡ names.old ++ else_names (option_map names_of no.now)) }
{
    match no {
        None => Ok(()),
        Some(s) => put_stmt(names, alloc, s.get()),
    }
}

/// Those in the first part of a `for`.
#[cycle(names)]
fn put_first(names: &mut Items<Items<u8>>, alloc: Global, init: &ForInit) -> Result<(), Memory>
    ensures { OnOk result (names.new ≡ names.old ++ names_in_first init.now) }
{
    match init {
        ForInit::Nothing => Ok(()),
        ForInit::First(_) => Ok(()),
        ForInit::Locals(all) => put_all(names, alloc, all.as_slice()),
    }
}

/// Those in the sections of a switch.
#[cycle(names)]
fn put_sections(
    names: &mut Items<Items<u8>>,
    alloc: Global,
    sections: &[Section],
) -> Result<(), Memory>
    ensures { OnOk result (names.new ≡ names.old ++ all_names (map names_in_section sections.now)) }
{
    for section in sections {
        put_all(names, alloc, section.body.as_slice())?;
    }
    Ok(())
}

/// Those in a switch, whose own scalar has none.
#[cycle(names)]
fn put_switch(
    names: &mut Items<Items<u8>>,
    alloc: Global,
    sections: &[Section],
) -> Result<(), Memory>
    ensures { OnOk result (names.new ≡ names.old ++ [] ∷ all_names (map names_in_section sections.now)) }
{
    put_name(names, alloc, &[])?;
    put_sections(names, alloc, sections)
}

/// Those in a statement.
#[cycle(names)]
fn put_stmt(names: &mut Items<Items<u8>>, alloc: Global, s: &Stmt) -> Result<(), Memory>
    ensures { OnOk result (names.new ≡ names.old ++ names_of s.now) }
{
    put_node(names, alloc, &s.node)
}

/// Those in what a statement is.
#[cycle(names)]
fn put_node(names: &mut Items<Items<u8>>, alloc: Global, node: &StmtNode) -> Result<(), Memory>
    ensures { OnOk result (names.new ≡ names.old ++ names_in_node node.now) }
{
    match node {
        StmtNode::Declare { name, size, .. } => put_declared(names, alloc, name, size),
        StmtNode::Plain(_) => Ok(()),
        StmtNode::Compound(all) => put_all(names, alloc, all.as_slice()),
        StmtNode::If { yes, no, .. } => {
            put_stmt(names, alloc, yes.get())?;
            put_else(names, alloc, no)
        }
        StmtNode::While { body, .. } => put_stmt(names, alloc, body.get()),
        StmtNode::Do { body, .. } => put_stmt(names, alloc, body.get()),
        StmtNode::For { init, body, .. } => {
            put_first(names, alloc, init)?;
            put_stmt(names, alloc, body.get())
        }
        StmtNode::Switch { sections, .. } => put_switch(names, alloc, sections.as_slice()),
        StmtNode::Break => Ok(()),
        StmtNode::Continue => Ok(()),
        StmtNode::Return(_) => Ok(()),
    }
}

/// The name of a parameter, if it has one.
fn put_parameter(names: &mut Items<Items<u8>>, alloc: Global, param: &Param) -> Result<(), Memory>
    ensures { OnOk result (names.new ≡ names.old ++ parameter_name param.now.name) }
{
    match &param.name {
        None => Ok(()),
        Some(name) => put_name(names, alloc, name.as_slice()),
    }
}

/// Those of parameters.
fn put_parameters(
    names: &mut Items<Items<u8>>,
    alloc: Global,
    params: &[Param],
) -> Result<(), Memory>
    ensures { OnOk result (names.new ≡ names.old ++ parameter_names params.now) }
{
    for param in params {
        put_parameter(names, alloc, param)?;
    }
    Ok(())
}

/// The names of the scalars of a function, by their numbers; a switch's is empty.
pub fn scalar_names(
    alloc: Global,
    params: &[Param],
    body: &Stmt,
) -> Result<Items<Items<u8>>, Memory>
    ensures { IfOk result (λ names. names ≡ scalar_names params.now body.now) }
{
    let mut names = Items::new(alloc);
    put_parameters(&mut names, alloc, params)?;
    put_stmt(&mut names, alloc, body)?;
    Ok(names)
}
