//! Prototypes and definitions of functions.

ghost use Rattle.std.specs.Prelude.{◌≡◌, map, length, Some, None, OnOk, true};
ghost use Rattle.std.specs.Option.{option_copied};
ghost use Rattle.c_type_expr.specs.inside.Says.{Says};
ghost use Rattle.c_type_expr.specs.Scope.{closed};
ghost use Rattle.c_type.specs.Functions as functions;
ghost use Rattle.c_type.specs.inside.Functions as inside_functions;
ghost use Rattle.c_type.specs.States as states;
ghost use Rattle.c_type.specs.inside.LeftOut.{some_block};
ghost use Rattle.c_type.specs.States.{nowhere};
ghost use Rattle.c_type.specs.Functions.{body_part, file_with};
ghost use Rattle.c_type.specs.inside.Runs.{Runs, Moves, Adds};

use crate::counts::counted;
use crate::declarations::{add_address, add_scalar};
use crate::file_scope::FileScope;
use crate::parameters::{param_row, params_at, slots_of};
use crate::signatures::{agrees, undefined};
use crate::state::{Around, State};
use crate::statements::{all, type_stmt};
use base::{Items, Queue};
use c_tree::{ArraySize, Callee, Kind, Param, Slot, Stmt, StmtNode, TypedFunc, TypedStmt, Word};
use c_type_expr::{Meaning, Scopes, TypeFault};
use std::alloc::Global;
use std::mem;

// Around the body of a function.
const NOWHERE: Around = Around {
    may_break: false,
    may_continue: false,
};

/// What stands before a function's body: the slots of the parameters.
fn head(
    alloc: Global,
    names: &mut Scopes,
    is_def: bool,
    given: Option<Kind>,
    name: &Word,
    params: &[Param],
    offset: u32,
) -> Result<Items<Slot>, TypeFault>
    requires { some_block names.old ≡ true }
    ensures value { Says (inside_functions.head_fault is_def given name.now params.now offset names.old)
        (map states.slot_of params.now) result }
    ensures same { OnOk result (names.new ≡ names.old) }
{
    params_at(alloc, names, is_def, params)?;
    let slots = slots_of(alloc, params)?;
    let found = names.look_up(name);
    undefined(found, is_def, offset)?;
    agrees(found, given, slots.as_slice(), offset)?;
    Ok(slots)
}

pub fn callee_in(found: Option<&Meaning>) -> Option<Callee>
    ensures { result ≡ functions.callee_in (option_copied found.entry) }
{
    match found {
        Some(Meaning::Function { callee, .. }) => *callee,
        _ => None,
    }
}

fn declared(
    alloc: Global,
    table: &Scopes,
    names: &mut Scopes,
    given: Option<Kind>,
    name: Word,
    slots: Items<Slot>,
    defined: bool,
) -> Result<(), TypeFault>
    ensures { Moves None tt (inside_functions.with_function table.now name given slots defined names.old)
        names.new result }
{
    let callee = callee_in(table.look_up(&name));
    names.declare(
        alloc,
        name,
        Meaning::Function {
            result: given,
            params: slots,
            callee,
            defined,
        },
    )?;
    Ok(())
}

/// The names after a prototype.
pub fn prototype(
    alloc: Global,
    table: &Scopes,
    names: &mut Scopes,
    offset: u32,
    given: Option<Kind>,
    name: Word,
    params: &[Param],
) -> Result<(), TypeFault>
    requires { some_block names.old ≡ true }
    ensures { Moves
        (inside_functions.head_fault Rattle.std.specs.Prelude.false given name params.now offset names.old)
        tt
        (functions.with_prototype table.now name given (map states.slot_of params.now) names.old)
        names.new result }
{
    let slots = head(alloc, names, false, given, &name, params, offset)?;
    if names.look_up(&name).is_some() {
        return Ok(());
    }
    declared(alloc, table, names, given, name, slots, false)
}

/// Keeps a parameter of that name.
fn add_named(
    alloc: Global,
    state: &mut State,
    kind: Kind,
    name: Word,
    size: &ArraySize,
    place: u32,
) -> Result<(), TypeFault>
    requires { place ≡ length state.old.scalars }
    ensures { Adds (states.named_param (Some name) size.now kind state.old) state.new result }
{
    match size {
        ArraySize::Scalar => add_scalar(alloc, state, kind, name, place),
        size => {
            let row = param_row(size)?;
            add_address(alloc, state, kind, row, name, place)
        }
    }
}

/// Keeps a parameter, where it has a name.
fn add_param(alloc: Global, state: &mut State, param: Param) -> Result<(), TypeFault>
    ensures { Adds (states.named_param param.name param.size param.kind state.old) state.new
        result }
{
    let place = counted(state.scalars.len())?;
    let Param {
        kind,
        name,
        size,
        ..
    } = param;
    match name {
        None => Ok(()),
        Some(name) => add_named(alloc, state, kind, name, &size, place),
    }
}

fn add_params(alloc: Global, state: &mut State, params: Items<Param>) -> Result<(), TypeFault>
    ensures { Adds (states.with_params params state.old) state.new result }
{
    let mut rest = Queue::from_items(params);
    while let Some(param) = rest.pop() {
        add_param(alloc, state, param)?;
    }
    Ok(())
}

/// A body, whose outermost block is the scope of the parameters.
#[tactic(auto, unfolding(crate::specs::Functions::body_part))]
fn body(alloc: Global, state: &mut State, s: Stmt) -> Result<TypedStmt, TypeFault>
    ensures { Runs (functions.body_part s) nowhere state.old state.new
        result }
{
    let Stmt { offset, node } = s;
    match node {
        StmtNode::Compound(body) => {
            let body = all(alloc, state, NOWHERE, body)?;
            Ok(TypedStmt::Compound(body))
        }
        node => type_stmt(alloc, state, NOWHERE, Stmt { offset, node }),
    }
}

/// The state in which a body begins.
fn entry(
    alloc: Global,
    table: &Scopes,
    names: Scopes,
    given: Option<Kind>,
    name: Word,
    params: Items<Param>,
    slots: Items<Slot>,
) -> Result<State, TypeFault>
    requires { slots ≡ map states.slot_of params }
    ensures { Says None (functions.entry table.now name given params names) result }
{
    let mut names = names;
    declared(alloc, table, &mut names, given, name, slots, true)?;
    names.open()?;
    let mut state = State {
        names,
        scalars: Items::new(alloc),
        arrays: Items::new(alloc),
        result: given,
    };
    add_params(alloc, &mut state, params)?;
    Ok(state)
}

/// The names after a function's body, and the typed function.
fn bodied(
    alloc: Global,
    state: State,
    s: Stmt,
    count: u32,
) -> Result<(Scopes, TypedFunc), TypeFault>
    ensures { Says ((functions.body_part s).fault nowhere state)
        (closed ((functions.body_part s).after state).names, functions.typed_function count s state)
        result }
{
    let mut state = state;
    let body = body(alloc, &mut state, s)?;
    let State {
        names,
        scalars,
        arrays,
        result,
    } = state;
    let mut names = names;
    names.close();
    Ok((
        names,
        TypedFunc {
            result,
            params: count,
            scalars,
            arrays,
            body,
        },
    ))
}

/// The file scope after a body that begins in a state.
fn defined(
    alloc: Global,
    file: &mut FileScope,
    state: State,
    s: Stmt,
    count: u32,
) -> Result<(), TypeFault>
    ensures { Moves ((body_part s).fault nowhere state) tt
        (file_with file.old.globals file.old.bytes file.old.functions count s state) file.new
        result }
{
    let (names, function) = bodied(alloc, state, s, count)?;
    file.names = names;
    file.functions.push(function)?;
    Ok(())
}

/// The file scope after a definition.
pub fn definition(
    alloc: Global,
    table: &Scopes,
    file: &mut FileScope,
    offset: u32,
    given: Option<Kind>,
    name: Word,
    params: Items<Param>,
    s: Stmt,
) -> Result<(), TypeFault>
    requires { some_block file.old.names ≡ true }
    ensures { Moves (inside_functions.definition_fault table.now given name params s offset file.old) tt
        (functions.with_definition table.now given name params s file.old) file.new result }
{
    let slots = head(
        alloc,
        &mut file.names,
        true,
        given,
        &name,
        params.as_slice(),
        offset,
    )?;
    let count = counted(params.len())?;
    let names = mem::replace(&mut file.names, Scopes::new(alloc));
    let state = entry(alloc, table, names, given, name, params, slots)?;
    defined(alloc, file, state, s, count)
}
