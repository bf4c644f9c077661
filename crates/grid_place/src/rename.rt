//! Targets renamed.
ghost use Rattle.std.specs.Prelude.{◌≡◌, option_map};
ghost use Rattle.grid_place.specs.Moves as spec;
ghost use Rattle.grid_place.specs.inside.Moves as inside_spec;

use trips_isa::{Inst, ReadSlot, Spot};

/// Where slot `s` goes.
pub fn goes(to: &[u8], s: u8) -> u8
    ensures value { result ≡ spec.goes to.now s }
{
    match to.get(s as usize) {
        Some(slot) => *slot,
        None => s,
    }
}

/// What a target names once each slot stands where it goes.
pub fn renamed(to: &[u8], spot: Spot) -> Spot
    ensures value { result ≡ inside_spec.renamed (spec.goes to.now) spot }
{
    match spot {
        Spot::Inst(s) => Spot::Inst(goes(to, s)),
        Spot::Left(s) => Spot::Left(goes(to, s)),
        Spot::Right(s) => Spot::Right(goes(to, s)),
        Spot::Pred(s) => Spot::Pred(goes(to, s)),
        Spot::Read(r) => Spot::Read(r),
        Spot::Write(w) => Spot::Write(w),
        Spot::Store(n) => Spot::Store(n),
    }
}

fn renamed_or_none(to: &[u8], spot: Option<Spot>) -> Option<Spot>
    ensures value { result ≡ option_map (inside_spec.renamed (spec.goes to.now)) spot }
{
    match spot {
        Some(spot) => Some(renamed(to, spot)),
        None => None,
    }
}

pub fn renamed_read(to: &[u8], read: ReadSlot) -> ReadSlot
    ensures value { result ≡ inside_spec.renamed_read (spec.goes to.now) read }
{
    ReadSlot {
        register: read.register,
        first: renamed(to, read.first),
        second: renamed_or_none(to, read.second),
    }
}

pub fn renamed_inst(to: &[u8], inst: Inst) -> Inst
    ensures value { result ≡ inside_spec.renamed_inst (spec.goes to.now) inst }
{
    Inst {
        op: inst.op,
        sense: inst.sense,
        imm: inst.imm,
        number: inst.number,
        first: renamed_or_none(to, inst.first),
        second: renamed_or_none(to, inst.second),
    }
}
