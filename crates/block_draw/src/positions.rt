//! Where the parts of a drawing stand.

ghost use Rattle.std.specs.Prelude.{◌≡◌, ◌≤◌};
ghost use Rattle.block_draw.specs.Positions as at;

/// An end of an arc, and the point by which the arc is pulled there.
#[derive(Clone, Copy, Debug, PartialEq, Eq)]
pub struct Port {
    pub x: u16,
    pub y: u16,
    pub pull_x: u16,
    pub pull_y: u16,
}

/// The left edge of a slot.
#[tactic(auto, unfolding(crate::specs::Positions::slot_x))]
pub fn slot_x(slot: u8) -> u16
    ensures value { result ≡ at.slot_x slot }
    ensures least { 158 ≤ result }
    ensures most { result ≤ 961 }
{
    let slot = slot as u16;
    158 + 230 * (slot % 4) + 113 * (slot / 16 % 2)
}

/// The upper edge of a slot.
#[tactic(auto, unfolding(crate::specs::Positions::slot_y))]
pub fn slot_y(slot: u8) -> u16
    ensures value { result ≡ at.slot_y slot }
    ensures least { 158 ≤ result }
    ensures most { result ≤ 1094 }
{
    let slot = slot as u16;
    158 + 200 * (slot % 16 / 4) + 48 * (slot / 32)
}

/// The left edge of a read or a write.
#[tactic(auto, unfolding(crate::specs::Positions::list_x))]
pub fn list_x(number: u8) -> u16
    ensures value { result ≡ at.list_x number }
    ensures most { result ≤ 1005 }
{
    let number = number as u16;
    150 + 57 * (number % 16)
}

/// The upper edge of a read.
#[tactic(auto, unfolding(crate::specs::Positions::read_y))]
pub fn read_y(number: u8) -> u16
    ensures value { result ≡ at.read_y number }
    ensures most { result ≤ 580 }
{
    let number = number as u16;
    40 + 36 * (number / 16)
}

/// The upper edge of a write.
#[tactic(auto, unfolding(crate::specs::Positions::write_y))]
pub fn write_y(number: u8) -> u16
    ensures value { result ≡ at.write_y number }
    ensures least { 980 ≤ result }
    ensures most { result ≤ 1520 }
{
    let number = number as u16;
    980 + 36 * (number / 16)
}

/// The upper edge of the load or store of a number.
#[tactic(auto, unfolding(crate::specs::Positions::memory_y))]
pub fn memory_y(number: u8) -> u16
    ensures value { result ≡ at.memory_y number }
    ensures most { result ≤ 5760 }
{
    150 + 22 * number as u16
}

/// The upper edge of the exit of a number.
#[tactic(auto, unfolding(crate::specs::Positions::exit_y))]
pub fn exit_y(number: u8) -> u16
    ensures value { result ≡ at.exit_y number }
    ensures most { result ≤ 15450 }
{
    150 + 60 * number as u16
}

// An end of an arc.
fn port_at(x: u16, y: u16, pull_x: u16, pull_y: u16) -> Port
    ensures { result ≡ at.port_at x y pull_x pull_y }
{
    Port {
        x,
        y,
        pull_x,
        pull_y,
    }
}

/// Where the token of a read leaves.
#[tactic(auto, unfolding(crate::specs::Positions::read_port))]
pub fn read_port(number: u8) -> Port
    ensures { result ≡ at.read_port number }
{
    let x = list_x(number) + 24;
    let y = read_y(number);
    port_at(x, y + 24, x, y + 64)
}

/// Where the result of a slot leaves.
#[tactic(auto, unfolding(crate::specs::Positions::result_port))]
pub fn result_port(slot: u8) -> Port
    ensures { result ≡ at.result_port slot }
{
    let x = slot_x(slot) + 45;
    let y = slot_y(slot);
    port_at(x, y + 28, x, y + 52)
}

/// Where a store in a slot leaves for memory.
#[tactic(auto, unfolding(crate::specs::Positions::store_port))]
pub fn store_port(slot: u8) -> Port
    ensures { result ≡ at.store_port slot }
{
    let x = slot_x(slot);
    let y = slot_y(slot) + 23;
    port_at(x, y, x - 24, y)
}

/// Where a branch in a slot leaves for its exit.
#[tactic(auto, unfolding(crate::specs::Positions::leave_port))]
pub fn leave_port(slot: u8) -> Port
    ensures { result ≡ at.leave_port slot }
{
    let x = slot_x(slot) + 91;
    let y = slot_y(slot) + 14;
    port_at(x, y, x + 24, y)
}

/// Where the left operand of a slot comes.
#[tactic(auto, unfolding(crate::specs::Positions::left_port))]
pub fn left_port(slot: u8) -> Port
    ensures { result ≡ at.left_port slot }
{
    let x = slot_x(slot) + 20;
    let y = slot_y(slot);
    port_at(x, y, x, y - 24)
}

/// Where the right operand of a slot comes.
#[tactic(auto, unfolding(crate::specs::Positions::right_port))]
pub fn right_port(slot: u8) -> Port
    ensures { result ≡ at.right_port slot }
{
    let x = slot_x(slot) + 71;
    let y = slot_y(slot);
    port_at(x, y, x, y - 24)
}

/// Where the predicate of a slot comes.
#[tactic(auto, unfolding(crate::specs::Positions::guard_port))]
pub fn guard_port(slot: u8) -> Port
    ensures { result ≡ at.guard_port slot }
{
    let x = slot_x(slot);
    let y = slot_y(slot) + 14;
    port_at(x - 4, y, x - 28, y)
}

/// Where what a load loads comes.
#[tactic(auto, unfolding(crate::specs::Positions::load_port))]
pub fn load_port(slot: u8) -> Port
    ensures { result ≡ at.load_port slot }
{
    let x = slot_x(slot) + 45;
    let y = slot_y(slot);
    port_at(x, y, x, y - 24)
}

/// Where the token of a write comes.
#[tactic(auto, unfolding(crate::specs::Positions::write_port))]
pub fn write_port(number: u8) -> Port
    ensures { result ≡ at.write_port number }
{
    let x = list_x(number) + 24;
    let y = write_y(number);
    port_at(x, y, x, y - 40)
}

/// Where memory is asked under a load/store number.
#[tactic(auto, unfolding(crate::specs::Positions::memory_port))]
pub fn memory_port(number: u8) -> Port
    ensures { result ≡ at.memory_port number }
{
    let y = memory_y(number) + 9;
    port_at(100, y, 140, y)
}

/// Where an exit is left by.
#[tactic(auto, unfolding(crate::specs::Positions::exit_port))]
pub fn exit_port(number: u8) -> Port
    ensures { result ≡ at.exit_port number }
{
    let y = exit_y(number) + 13;
    port_at(1090, y, 1050, y)
}
