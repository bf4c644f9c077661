//! The include of `<stdio.h>`: `getchar`, `putchar`, what ends the whole run, and `EOF`.

ghost use Rattle.std.specs.Prelude.{◌≡◌, [], ◌∷◌, IfOk};
ghost use Rattle.c_type_expr.specs.inside.Says.{Says};
ghost use Rattle.c_type.specs.Units as units;
ghost use Rattle.c_type.specs.FileScopes as file_scopes;
ghost use Rattle.c_type.specs.inside.Runs.{Moves};

use crate::declarations::{is_end, twice};
use crate::signatures::{agrees, undefined};
use base::Items;
use c_tree::{Callee, Kind, Slot, Word};
use c_type_expr::{Meaning, Scopes, TypeFault};
use std::alloc::{AllocError, Global};

fn eof_name(alloc: Global) -> Result<Word, AllocError>
    ensures { IfOk result (λ w. w ≡ file_scopes.eof_name) }
{
    Word::from_slice(alloc, b"EOF")
}

fn getchar_name(alloc: Global) -> Result<Word, AllocError>
    ensures { IfOk result (λ w. w ≡ file_scopes.getchar_name) }
{
    Word::from_slice(alloc, b"getchar")
}

fn putchar_name(alloc: Global) -> Result<Word, AllocError>
    ensures { IfOk result (λ w. w ≡ file_scopes.putchar_name) }
{
    Word::from_slice(alloc, b"putchar")
}

fn exit_name(alloc: Global) -> Result<Word, AllocError>
    ensures { IfOk result (λ w. w ≡ file_scopes.exit_name) }
{
    Word::from_slice(alloc, b"exit.now")
}

fn int_slots(alloc: Global) -> Result<Items<Slot>, AllocError>
    ensures { IfOk result (λ s. s ≡ file_scopes.int_slots) }
{
    Items::from_slice(alloc, &[Slot::Scalar(Kind::Int)])
}

fn long_slots(alloc: Global) -> Result<Items<Slot>, AllocError>
    ensures { IfOk result (λ s. s ≡ file_scopes.long_slots) }
{
    Items::from_slice(alloc, &[Slot::Scalar(Kind::Long)])
}

fn get_char(alloc: Global) -> Meaning
    ensures { result ≡ file_scopes.get_char }
{
    Meaning::Function {
        result: Some(Kind::Int),
        params: Items::new(alloc),
        callee: Some(Callee::GetChar),
        defined: true,
    }
}

fn put_char(alloc: Global) -> Result<Meaning, AllocError>
    ensures { IfOk result (λ m. m ≡ file_scopes.put_char) }
{
    Ok(Meaning::Function {
        result: Some(Kind::Int),
        params: int_slots(alloc)?,
        callee: Some(Callee::PutChar),
        defined: true,
    })
}

fn exit_now(alloc: Global) -> Result<Meaning, AllocError>
    ensures { IfOk result (λ m. m ≡ file_scopes.exit_now) }
{
    let params = long_slots(alloc)?;
    Ok(Meaning::Function {
        result: None,
        params,
        callee: Some(Callee::Exit),
        defined: true,
    })
}

/// Whether the include may stand where it does.
fn clash(alloc: Global, names: &Scopes, offset: u32) -> Result<(), TypeFault>
    ensures { Says (units.include_clash names.now offset) tt result }
{
    let eof = eof_name(alloc)?;
    let get = getchar_name(alloc)?;
    let put = putchar_name(alloc)?;
    let exit = exit_name(alloc)?;
    let character = int_slots(alloc)?;
    let value = long_slots(alloc)?;
    undefined(names.look_up(&get), true, offset)?;
    undefined(names.look_up(&put), true, offset)?;
    undefined(names.look_up(&exit), true, offset)?;
    twice(names, &eof, offset)?;
    agrees(names.look_up(&get), Some(Kind::Int), &[], offset)?;
    agrees(
        names.look_up(&put),
        Some(Kind::Int),
        character.as_slice(),
        offset,
    )?;
    agrees(names.look_up(&exit), None, value.as_slice(), offset)
}

/// The functions of the include, declared.
pub fn declare_functions(alloc: Global, names: &mut Scopes) -> Result<(), TypeFault>
    ensures { Moves None tt (file_scopes.with_functions names.old) names.new result }
{
    names.declare(alloc, getchar_name(alloc)?, get_char(alloc))?;
    let put = put_char(alloc)?;
    names.declare(alloc, putchar_name(alloc)?, put)?;
    let exit = exit_now(alloc)?;
    names.declare(alloc, exit_name(alloc)?, exit)?;
    Ok(())
}

/// The names of the include, declared.
fn declared(alloc: Global, names: &mut Scopes) -> Result<(), TypeFault>
    ensures { Moves None tt (file_scopes.with_include names.old) names.new result }
{
    declare_functions(alloc, names)?;
    names.declare(alloc, eof_name(alloc)?, Meaning::EndOfFile)?;
    Ok(())
}

/// The names after the include.
pub fn include(alloc: Global, names: &mut Scopes, offset: u32) -> Result<(), TypeFault>
    ensures { Moves (units.include_fault names.old offset) tt (units.included names.old) names.new
        result }
{
    let eof = eof_name(alloc)?;
    if is_end(names.look_up(&eof)) {
        return Ok(());
    }
    clash(alloc, names, offset)?;
    declared(alloc, names)
}
