//! What the loops of a function read: the first pass, forward.

ghost use Rattle.std.specs.Prelude.{◌≡◌, OnOk};
ghost use Rattle.ir_forms.specs.inside.FlatViews.{code_of, step_of};
ghost use Rattle.reg_assign.specs.inside.Pass as pass;
ghost use Rattle.reg_assign.specs.inside.Pass.{behind_loop};

use crate::sets::{read_by, read_if, with_read};
use base::{Items, Memory};
use ir_forms::{Arg, FlatStmt};

/// What was read so far in the innermost open loop, and what each closed loop reads, in the order in
/// which they closed.
#[derive(Drop)]
pub struct Reading {
    pub read: u128,
    pub loops: Items<u128>,
}

fn note(reading: &mut Reading, x: Arg)
    ensures { reading.new ≡ pass.adding reading.old (pass.read_by x) }
{
    reading.read = reading.read | read_by(x);
}

fn note_both(reading: &mut Reading, x: Arg, y: Arg)
    ensures { reading.new
        ≡ pass.adding (pass.adding reading.old (pass.read_by x)) (pass.read_by y) }
{
    note(reading, x);
    note(reading, y);
}

fn note_all(reading: &mut Reading, args: &[Arg])
    ensures { reading.new ≡ pass.adding_all reading.old args.now }
{
    reading.read = with_read(reading.read, args);
}

fn note_if(reading: &mut Reading, x: Option<Arg>)
    ensures { reading.new ≡ pass.adding_if reading.old x }
{
    match x {
        None => {}
        Some(x) => note(reading, x),
    }
}

fn close_loop(reading: &mut Reading, outer: u128) -> Result<(), Memory>
    ensures { OnOk result (reading.new ≡ behind_loop outer reading.old) }
{
    reading.loops.push(reading.read)?;
    reading.read = outer | reading.read;
    Ok(())
}

/// Opens a loop: what was read before it.
fn open_loop(reading: &mut Reading) -> u128
    ensures before { result ≡ reading.old.read }
    ensures opened { reading.new ≡ pass.opened reading.old }
{
    let outer = reading.read;
    reading.read = 0;
    outer
}

#[cycle(reading)]
fn read_stmt(s: &FlatStmt, reading: &mut Reading) -> Result<(), Memory>
    ensures { OnOk result (reading.new ≡ pass.reading_in (step_of s.now) reading.old) }
{
    match s {
        FlatStmt::Let { a, b, .. } => note_both(reading, *a, *b),
        FlatStmt::Frame { .. } => {}
        FlatStmt::Load { address, .. } => note(reading, *address),
        FlatStmt::Save { address, value, .. } => note_both(reading, *address, *value),
        FlatStmt::Call { args, .. } => note_all(reading, args.as_slice()),
        FlatStmt::Put(value) => note(reading, *value),
        FlatStmt::Get { .. } => {}
        FlatStmt::If { test, yes, no } => {
            note(reading, *test);
            read_stmts(yes.as_slice(), reading)?;
            read_stmts(no.as_slice(), reading)?;
        }
        FlatStmt::Loop { body, post } => {
            let outer = open_loop(reading);
            read_stmts(body.as_slice(), reading)?;
            read_stmts(post.as_slice(), reading)?;
            close_loop(reading, outer)?;
        }
        FlatStmt::Break => {}
        FlatStmt::Continue => {}
        FlatStmt::Return(value) => note_if(reading, *value),
        FlatStmt::Halt(value) => note(reading, *value),
    }
    Ok(())
}

/// Notes what statements read.
#[cycle(reading)]
pub fn read_stmts(stmts: &[FlatStmt], reading: &mut Reading) -> Result<(), Memory>
    ensures { OnOk result (reading.new ≡ pass.reading (code_of stmts.now) reading.old) }
{
    for s in stmts {
        read_stmt(s, reading)?;
    }
    Ok(())
}
