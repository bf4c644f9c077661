//! How four programs are made.
ghost use Rattle.std.specs.Prelude.{◌≡◌, ◌<◌, ◌++◌, ◌∷◌, All, IfOk, OnOk, [], length};
ghost use Rattle.smt_mode.specs.Machines.{four_of, images_of};
ghost use Rattle.smt_mode.specs.Starts.{begun_at, images_at};
ghost use Rattle.smt_mode.specs.inside.Begun.{HasBegun, HaveBegun, IsNext};
ghost use Rattle.smt_mode.specs.inside.Histories.{IsEngine};

use crate::four::Started;
use crate::machine::Machine;
use crate::turns::Program;
use base::{Items, Memory, Queue};
use grid_machine::make;
use operand_net::Weather;
use std::alloc::Global;

// A program at the start of its run.
fn program_of(alloc: Global, started: Started, budget: u32) -> Result<Program, Memory>
    requires stack { started.predictor.stack ≡ [] }
    requires some { 0 < budget }
    ensures { IfOk result (λ g. HasBegun budget started g) }
{
    let Started {
        image,
        input,
        predictor,
    } = started;
    let program = make(alloc, image, input, predictor, (), budget)?;
    program.window.keeps_invariant();
    Ok(program)
}

// Some that are to be made, the first one first.
fn queue_of(alloc: Global, started: [Started; 4]) -> Result<Queue<Started>, Memory>
    ensures value { IfOk result (λ q. q ≡ started) }
    ensures four { IfOk result (λ q. length q ≡ 4) }
{
    match Vec::from_array(alloc, started) {
        Ok(started) => Ok(Queue::from_items(Items::from_vec(started))),
        Err(_) => Err(Memory),
    }
}

// The first of some is made.
fn next_of(alloc: Global, rest: &mut Queue<Started>, budget: u32) -> Result<Program, Memory>
    requires stack { All (λ s. s.predictor.stack ≡ []) rest.old }
    requires some { 0 < budget }
    ensures next { IfOk result (λ x. IsNext budget rest.old rest.new x) }
    ensures stack { All (λ s. s.predictor.stack ≡ []) rest.new }
{
    match rest.pop() {
        Some(started) => program_of(alloc, started, budget),
        None => Err(Memory),
    }
}

// One program more.
fn add(programs: &mut Vec<Program>, program: Program) -> Result<(), Memory>
    ensures { OnOk result (programs.new.items ≡ programs.old.items ++ program ∷ []) }
{
    match programs.push(program) {
        Ok(()) => Ok(()),
        Err(_) => Err(Memory),
    }
}

// Four programs at the start of their runs.
fn programs_of(alloc: Global, started: [Started; 4], budget: u32) -> Result<Vec<Program>, Memory>
    requires stack { All (λ s. s.predictor.stack ≡ []) started }
    requires some { 0 < budget }
    ensures begun { IfOk result (λ ps. HaveBegun budget started ps.items) }
    ensures four { IfOk result (λ ps. length ps.items ≡ 4) }
{
    let mut rest = queue_of(alloc, started)?;
    let first = next_of(alloc, &mut rest, budget)?;
    let second = next_of(alloc, &mut rest, budget)?;
    let third = next_of(alloc, &mut rest, budget)?;
    let fourth = next_of(alloc, &mut rest, budget)?;
    let mut programs = Vec::new(alloc);
    add(&mut programs, first)?;
    add(&mut programs, second)?;
    add(&mut programs, third)?;
    add(&mut programs, fourth)?;
    Ok(programs)
}

/// Four programs at the start of their runs, and nothing under way.
pub fn machine_of<W: Weather + Drop>(
    alloc: Global,
    started: [Started; 4],
    weather: W,
    budget: u32,
) -> Result<Machine<W>, Memory>
    requires stack { All (λ s. s.predictor.stack ≡ []) started }
    requires some { 0 < budget }
    ensures begun { IfOk result (λ m. four_of m ≡ begun_at started weather) }
    ensures images { IfOk result (λ m. images_of m ≡ images_at started) }
    ensures budget { IfOk result (λ m. m.budget ≡ budget) }
    ensures engine { IfOk result (λ m. IsEngine W.next W.follows m) }
{
    let programs = programs_of(alloc, started, budget)?;
    Ok(Machine {
        programs,
        units: [0; 16],
        weather,
        cycles: 0,
        budget,
    })
}
