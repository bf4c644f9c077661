ghost use Rattle.std.specs.Prelude.{◌≡◌, ◌+◌, ◌*◌, ◌<◌, ◌≤◌, ◌^◌, ◌++◌, map};
ghost use Rattle.std.specs.Prelude.{replicate, None, OnOk, SomeIff};
ghost use Rattle.c_tree.specs.Limits.{most_frame_bytes};
ghost use Rattle.c_meaning_spec.specs.Call.{array_bytes, array_row, frame as frame_of, unset_array};

use crate::arrays::Arrays;
use crate::scalars::Scalars;
use c_constant::bytes;
use c_tree::{MOST_FRAME_BYTES, TypedArray, TypedFunc};
use std::alloc::AllocError;

// The bytes of an array, rounded up to 8.
fn bytes_of(a: &TypedArray) -> u64
    ensures value { result ≡ array_bytes a.now }
    ensures bound { result < 2 ^ 36 }
{
    (a.length as u64 * bytes(a.kind) as u64 + 7) / 8 * 8
}

/// The bytes of the active frames with that of f, if so many are allowed.
#[inline(always)]
pub fn room_with(room: u32, f: &TypedFunc) -> Option<u32>
    ensures { SomeIff result (room + frame_of f.now ≤ most_frame_bytes) (room + frame_of f.now) }
{
    let scalars = f.scalars.len() as u64;
    if scalars > MOST_FRAME_BYTES {
        return None;
    }
    let mut total = room as u64 + 8 * (18 + scalars);
    if total > MOST_FRAME_BYTES {
        return None;
    }
    for a in f.arrays.as_slice() {
        total += bytes_of(a);
        if total > MOST_FRAME_BYTES {
            return None;
        }
    }
    Some(total as u32)
}

/// Adds scalars that are not set.
#[inline(always)]
pub fn pad(
    scalars: &mut Scalars,
    lists: &mut Vec<Vec<Option<u64>>>,
    count: usize,
) -> Result<(), AllocError>
    ensures { OnOk result (scalars.new ≡ scalars.old ++ replicate count None) }
{
    for _i in 0..count {
        scalars.push(lists, None)?;
    }
    Ok(())
}

// Adds the second sizes of the arrays of a call.
#[inline(always)]
pub fn add_rows(rows: &mut Vec<Option<u32>>, f: &TypedFunc) -> Result<(), AllocError>
    ensures { OnOk result (rows.new.items ≡ rows.old.items ++ map array_row f.now.arrays) }
{
    for a in f.arrays.as_slice() {
        rows.push(a.row)?;
    }
    Ok(())
}

// Adds the arrays of a call, unset.
#[inline(always)]
pub fn add_arrays(arrays: &mut Arrays, f: &TypedFunc) -> Result<(), AllocError>
    ensures { OnOk result (arrays.new ≡ arrays.old ++ map unset_array f.now.arrays) }
{
    for a in f.arrays.as_slice() {
        arrays.add_unset(a.length)?;
    }
    Ok(())
}
