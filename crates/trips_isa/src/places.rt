//! The numbers of a block's places (docs/MACHINE.md, "Places"), as the code has them, and the store mask.

ghost use Rattle.std.specs.Prelude.{◌≡◌};
ghost use Rattle.trips_isa.specs.PlaceNumbers as numbers;
ghost use Rattle.trips_isa.specs.Places.{in_mask};

/// The place of write 0; write w is `FIRST_WRITE + w`.
pub const FIRST_WRITE: u16 = 384;

/// The place of store number 0; number n is `FIRST_STORE + n`.
pub const FIRST_STORE: u16 = 416;

/// The place of the exit.
pub const EXIT: u16 = 448;

/// How many places there are: the operands and predicates of 128 slots, 32 writes, 32 store numbers and
/// the exit.
pub const PLACES: u16 = 449;

/// The number of no place, for a target that is not there.
pub const NO_PLACE: u16 = 700;

/// The numbers of the code are those of the definitions. It does nothing when it runs.
pub fn constants_are_the_definitions()
    ensures first_write { FIRST_WRITE ≡ numbers.first_write }
    ensures first_store { FIRST_STORE ≡ numbers.first_store }
    ensures exit { EXIT ≡ numbers.exit_place }
    ensures places { PLACES ≡ numbers.place_count }
    ensures no_place { NO_PLACE ≡ numbers.no_place }
{}

/// Whether a mask has this store number.
pub fn in_mask(mask: u32, number: u8) -> bool
    ensures { result ≡ in_mask mask number }
{
    number < 32 && (mask >> number) % 2 == 1
}
