//! How long lists are, as a typed program keeps it.

ghost use Rattle.std.specs.Prelude.{None};
ghost use Rattle.c_type_expr.specs.inside.Says.{Says};

use c_type_expr::TypeFault;

/// The number of a list's items, for which a typed program has 32 bits. A list with more is want of memory.
pub fn counted(count: usize) -> Result<u32, TypeFault>
    ensures { Says None count result }
{
    if count > 0xffff_ffff {
        return Err(TypeFault::Memory);
    }
    Ok(count as u32)
}

/// A length, for which a typed program has 32 bits. One that has more is want of memory.
pub fn short(length: u64) -> Result<u32, TypeFault>
    ensures { Says None length result }
{
    if length > 0xffff_ffff {
        return Err(TypeFault::Memory);
    }
    Ok(length as u32)
}
