//! The numbers of a mask that are there: the next below one, and the next from one on.
ghost use Rattle.std.specs.Prelude.{◌≡◌, ◌≤◌};
ghost use Rattle.lsq_order.specs.inside.Masks.{IsEnd, IsNext};

/// One past the highest bit of a mask below a number, and 0 where there is none.
#[inline]
pub fn end_below(mask: u32, below: u32) -> u32
    requires { below ≤ 32 }
    ensures { IsEnd mask below result }
{
    let bits = mask as u64 & ((1 << below) - 1);
    if bits == 0 {
        0
    } else {
        64 - bits.leading_zeros()
    }
}

/// The lowest bit of a mask from a number on, and 32 where there is none.
#[inline]
pub fn next_from(mask: u32, from: u32) -> u32
    requires { from ≤ 32 }
    ensures { IsNext mask from result }
{
    let rest = mask as u64 >> from;
    if rest == 0 {
        32
    } else {
        from + rest.trailing_zeros()
    }
}
