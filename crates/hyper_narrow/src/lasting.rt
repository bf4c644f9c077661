//! Whether a register outlasts a block.
ghost use Rattle.std.specs.Prelude.{◌≡◌, ◌<◌};
ghost use Rattle.hyper_narrow.specs.inside.NarrowedCode as spec;

use crate::narrowed::Lasting;

fn has(set: u128, register: u8) -> bool
    requires { register < 128 }
    ensures { result ≡ spec.has set register }
{
    (set >> register) & 1 == 1
}

fn is_among(set: u128, register: u8) -> bool
    ensures { result ≡ spec.is_among set register }
{
    if register < 128 {
        has(set, register)
    } else {
        true
    }
}

/// Whether a register outlasts a block of such a set.
pub fn outlasts(lasting: Lasting, register: u8) -> bool
    ensures { result ≡ spec.outlasts lasting register }
{
    match lasting {
        Lasting::Every => true,
        Lasting::Those(set) => is_among(set, register),
    }
}
