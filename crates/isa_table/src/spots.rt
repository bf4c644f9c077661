ghost use Rattle.std.specs.Prelude.{◌≡◌, ◌++◌, OnOk};
ghost use Rattle.isa_table.specs.Spots.{indexed, at_slot, spot_text};

use crate::digits::put_number;
use std::alloc::AllocError;
use trips_isa::Spot;

/// Writes a letter with an index, as `G[5]`.
#[tactic(auto, unfolding(crate::specs::Spots::indexed))]
pub fn put_indexed(out: &mut Vec<u8>, letter: u8, n: u64) -> Result<(), AllocError>
    ensures ok { OnOk result (out.new.items ≡ out.old.items ++ indexed letter n) }
{
    out.push(letter)?;
    out.push(b'[')?;
    put_number(out, n)?;
    out.push(b']')?;
    Ok(())
}

#[tactic(auto, unfolding(crate::specs::Spots::at_slot))]
fn put_at_slot(out: &mut Vec<u8>, place: u8, n: u64) -> Result<(), AllocError>
    ensures ok { OnOk result (out.new.items ≡ out.old.items ++ at_slot place n) }
{
    out.extend_from_slice(b"N[")?;
    put_number(out, n)?;
    out.push(b',')?;
    out.push(place)?;
    out.push(b']')?;
    Ok(())
}

/// Writes a spot of a block, as `N[5,p]`.
pub fn put_spot(out: &mut Vec<u8>, spot: Spot) -> Result<(), AllocError>
    ensures ok { OnOk result (out.new.items ≡ out.old.items ++ spot_text spot) }
{
    match spot {
        Spot::Read(r) => put_indexed(out, b'R', r as u64),
        Spot::Inst(s) => put_indexed(out, b'N', s as u64),
        Spot::Left(s) => put_at_slot(out, b'0', s as u64),
        Spot::Right(s) => put_at_slot(out, b'1', s as u64),
        Spot::Pred(s) => put_at_slot(out, b'p', s as u64),
        Spot::Write(w) => put_indexed(out, b'W', w as u64),
        Spot::Store(n) => put_indexed(out, b'S', n as u64),
    }
}
