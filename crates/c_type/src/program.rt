//! The typing of a translation unit, item by item.

ghost use Rattle.std.specs.Prelude.{◌≡◌, [], ◌∷◌, None, true};
ghost use Rattle.std.specs.Option.{option_copied};
ghost use Rattle.c_type_expr.specs.Blames.{unless};
ghost use Rattle.c_type_expr.specs.inside.Says.{Says};
ghost use Rattle.c_type.specs.inside.LeftOut.{some_block};
ghost use Rattle.c_type.specs.Programs as programs;
ghost use Rattle.c_type.specs.inside.Programs as inside_programs;
ghost use Rattle.c_type.specs.FileScopes as file_scopes;
ghost use Rattle.c_type.specs.inside.Runs.{Moves};

use crate::file_scope::FileScope;
use crate::functions::{callee_in, definition, prototype};
use crate::globals::global;
use crate::includes::{declare_functions, include};
use base::{Items, Queue};
use c_tree::{Callee, Kind, Param, Program, Stmt, Top, TopNode, TypedProgram, Word};
use c_type_expr::{Meaning, Scopes, TypeFault};
use std::alloc::Global;

/// Notes what an item defines, as the function of that number.
fn note(alloc: Global, table: &mut Scopes, node: &TopNode, number: u32) -> Result<(), TypeFault>
    ensures { inside_programs.Notes (programs.noted node.now number table.old)
        table.new result }
{
    match node {
        TopNode::Include => declare_functions(alloc, table),
        TopNode::Func {
            name,
            body: Some(_),
            ..
        } => {
            let name = name.copy(alloc)?;
            table.declare(
                alloc,
                name,
                Meaning::Function {
                    result: None,
                    params: Items::new(alloc),
                    callee: Some(Callee::Func(number)),
                    defined: true,
                },
            )?;
            Ok(())
        }
        _ => Ok(()),
    }
}

/// The number of the next definition.
fn next(node: &TopNode, number: u32) -> Result<u32, TypeFault>
    ensures { Says None (file_scopes.count_after node.now number) result }
{
    match node {
        TopNode::Func { body: Some(_), .. } => {
            match number.checked_add(1) {
                None => Err(TypeFault::Memory),
                Some(number) => Ok(number),
            }
        }
        _ => Ok(number),
    }
}

/// The functions that a unit defines.
fn table(alloc: Global, items: &[Top]) -> Result<Scopes, TypeFault>
    ensures { Says None (programs.table items.now) result }
{
    let mut table = Scopes::new(alloc);
    let mut number = 0;
    for top in items {
        note(alloc, &mut table, &top.node, number)?;
        number = next(&top.node, number)?;
    }
    Ok(table)
}

/// The file scope after the include.
fn include_at(alloc: Global, file: &mut FileScope, offset: u32) -> Result<(), TypeFault>
    ensures { Moves (inside_programs.node_fault ([] ∷ []) TopNode.Include offset file.old) tt
        (programs.node_after ([] ∷ []) TopNode.Include file.old) file.new result }
{
    include(alloc, &mut file.names, offset)
}

/// The file scope after a prototype.
fn prototype_at(
    alloc: Global,
    table: &Scopes,
    file: &mut FileScope,
    offset: u32,
    given: Option<Kind>,
    name: Word,
    params: &[Param],
) -> Result<(), TypeFault>
    requires { some_block file.old.names ≡ true }
    ensures { Moves (inside_programs.prototype_fault given name params.now offset file.old) tt
        (programs.with_prototype_at table.now given name params.now file.old) file.new result }
{
    prototype(alloc, table, &mut file.names, offset, given, name, params)
}

/// The file scope after a prototype or a definition.
fn function(
    alloc: Global,
    table: &Scopes,
    file: &mut FileScope,
    offset: u32,
    given: Option<Kind>,
    name: Word,
    params: Items<Param>,
    body: Option<Stmt>,
) -> Result<(), TypeFault>
    requires { some_block file.old.names ≡ true }
    ensures { Moves
        (inside_programs.node_fault table.now (TopNode.Func given name params body) offset file.old) tt
        (programs.node_after table.now (TopNode.Func given name params body) file.old) file.new
        result }
{
    match body {
        None => prototype_at(alloc, table, file, offset, given, name, params.as_slice()),
        Some(body) => definition(alloc, table, file, offset, given, name, params, body),
    }
}

/// The file scope after an item.
fn item(alloc: Global, table: &Scopes, file: &mut FileScope, top: Top) -> Result<(), TypeFault>
    requires { some_block file.old.names ≡ true }
    ensures { Moves (inside_programs.item_fault table.now top file.old) tt
        (programs.item_after table.now top file.old) file.new result }
{
    let Top { offset, node } = top;
    match node {
        TopNode::Include => include_at(alloc, file, offset),
        TopNode::Global {
            kind,
            name,
            size,
            init,
        } => global(alloc, file, offset, kind, name, &size, init.as_slice()),
        TopNode::Func {
            result: given,
            name,
            params,
            body,
        } => function(alloc, table, file, offset, given, name, params, body),
    }
}

/// The file scope after all items.
#[tactic(auto, using(crate::proofs::Blocks::on_items))]
fn items(alloc: Global, table: &Scopes, tops: Items<Top>) -> Result<FileScope, TypeFault>
    ensures { Says (inside_programs.items_fault table.now tops file_scopes.empty_file)
        (programs.items_after table.now tops file_scopes.empty_file) result }
{
    let mut file = FileScope {
        names: Scopes::new(alloc),
        globals: Items::new(alloc),
        bytes: 0,
        functions: Items::new(alloc),
    };
    let mut rest = Queue::from_items(tops);
    while let Some(top) = rest.pop() {
        item(alloc, table, &mut file, top)?;
    }
    Ok(file)
}

fn is_int(given: Option<Kind>) -> bool
    ensures { result ≡ programs.is_int given }
{
    match given {
        None => false,
        Some(kind) => kind == Kind::Int,
    }
}

fn is_main(found: Option<&Meaning>) -> bool
    ensures { result ≡ programs.is_main (option_copied found.entry) }
{
    match found {
        Some(
            Meaning::Function {
                result,
                params,
                defined,
                ..
            },
        ) => is_int(*result) && params.is_empty() && *defined,
        _ => false,
    }
}

fn number_in(callee: Option<Callee>) -> u32
    ensures { result ≡ file_scopes.number_in callee }
{
    match callee {
        Some(Callee::Func(number)) => number,
        _ => 0,
    }
}

/// The typed program of a unit, or the first fault of its items; a `main` that is missing is found
/// last.
pub fn type_program(alloc: Global, program: Program) -> Result<TypedProgram, TypeFault>
    ensures { Says (inside_programs.program_fault program) (inside_programs.program_tree program) result }
{
    let Program { items: tops } = program;
    let main = Word::from_slice(alloc, b"main")?;
    let table = table(alloc, tops.as_slice())?;
    let file = items(alloc, &table, tops)?;
    if !is_main(file.names.look_up(&main)) {
        return Err(TypeFault::NoMain);
    }
    let number = number_in(callee_in(file.names.look_up(&main)));
    Ok(TypedProgram {
        globals: file.globals,
        functions: file.functions,
        main: number,
    })
}
