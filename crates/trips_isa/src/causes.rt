//! The causes of traps, and their numbers.
ghost use Rattle.std.specs.Prelude.{◌≡◌};
ghost use Rattle.trips_isa.specs.TrapCauses.{number_of, cause_of, no_mark};

/// Why a block traps: it divides by zero, an address is no multiple of its access's size, or a byte of
/// an access lies outside data memory.
#[derive(Clone, Copy, Debug, PartialEq, Eq)]
pub enum TrapCause {
    DivisionByZero,
    Misaligned,
    OutsideMemory,
}

/// The mark of a token of which no cause is known.
pub const NO_MARK: u8 = 0;

/// The number of a cause: a token that follows a fault has it as its mark, and a report tells it.
pub fn number_of(cause: TrapCause) -> u8
    ensures value { result ≡ number_of cause }
{
    match cause {
        TrapCause::DivisionByZero => 1,
        TrapCause::Misaligned => 2,
        TrapCause::OutsideMemory => 3,
    }
}

/// The cause of which a mark is the number.
pub fn cause_of(mark: u8) -> TrapCause
    ensures value { result ≡ cause_of mark }
{
    if mark == 1 {
        TrapCause::DivisionByZero
    } else if mark == 2 {
        TrapCause::Misaligned
    } else {
        TrapCause::OutsideMemory
    }
}
