//! The elements of a drawing.

ghost use Rattle.std.specs.Prelude.{◌≡◌, ◌++◌, OnOk, codes};
ghost use Rattle.block_draw.specs.Shapes.{opened, attribute, placed, sized, box_text, circle_text};
ghost use Rattle.block_draw.specs.Shapes.{letters_begin, letters_text, point, curve_end, curve_text};

use crate::positions::Port;
use isa_table::put_number;
use std::alloc::AllocError;

// Writes the beginning of an element, up to its class.
#[tactic(auto, unfolding(crate::specs::Shapes::opened))]
fn open(out: &mut Vec<u8>, name: &[u8], class: &[u8]) -> Result<(), AllocError>
    ensures ok { OnOk result (out.new.items ≡ out.old.items ++ opened name.now class.now) }
{
    out.extend_from_slice(b"<")?;
    out.extend_from_slice(name)?;
    out.extend_from_slice(b" class='")?;
    out.extend_from_slice(class)?;
    out.extend_from_slice(b"'")
}

// Writes an attribute that is a number.
#[tactic(auto, unfolding(crate::specs::Shapes::attribute))]
fn put_attribute(out: &mut Vec<u8>, name: &[u8], n: u64) -> Result<(), AllocError>
    ensures ok { OnOk result (out.new.items ≡ out.old.items ++ attribute name.now n) }
{
    out.extend_from_slice(b" ")?;
    out.extend_from_slice(name)?;
    out.extend_from_slice(b"='")?;
    put_number(out, n)?;
    out.extend_from_slice(b"'")
}

// Writes a place.
#[tactic(auto, unfolding(crate::specs::Shapes::placed))]
fn put_place(out: &mut Vec<u8>, x: u16, y: u16) -> Result<(), AllocError>
    ensures ok { OnOk result (out.new.items ≡ out.old.items ++ placed x y) }
{
    put_attribute(out, b"x", x as u64)?;
    put_attribute(out, b"y", y as u64)
}

// Writes a size.
#[tactic(auto, unfolding(crate::specs::Shapes::sized))]
fn put_size(out: &mut Vec<u8>, width: u16, height: u16) -> Result<(), AllocError>
    ensures ok { OnOk result (out.new.items ≡ out.old.items ++ sized width height) }
{
    put_attribute(out, b"width", width as u64)?;
    put_attribute(out, b"height", height as u64)
}

/// A box: its place, its size, and the radius of its corners.
#[derive(Clone, Copy, Debug)]
pub struct Frame {
    pub x: u16,
    pub y: u16,
    pub width: u16,
    pub height: u16,
    pub round: u16,
}

/// Writes a box of a class.
#[tactic(auto, unfolding(crate::specs::Shapes::box_text))]
pub fn put_box(out: &mut Vec<u8>, class: &[u8], frame: Frame) -> Result<(), AllocError>
    ensures ok { OnOk result (out.new.items ≡ out.old.items
        ++ box_text class.now frame.x frame.y frame.width frame.height frame.round) }
{
    open(out, b"rect", class)?;
    put_place(out, frame.x, frame.y)?;
    put_size(out, frame.width, frame.height)?;
    put_attribute(out, b"rx", frame.round as u64)?;
    out.extend_from_slice(b"/>\n")
}

/// Writes a circle of a class, of a middle and a radius.
#[tactic(auto, unfolding(crate::specs::Shapes::circle_text))]
pub fn put_circle(
    out: &mut Vec<u8>,
    class: &[u8],
    x: u16,
    y: u16,
    radius: u16,
) -> Result<(), AllocError>
    ensures ok { OnOk result (out.new.items ≡ out.old.items ++ circle_text class.now x y radius) }
{
    open(out, b"circle", class)?;
    put_attribute(out, b"cx", x as u64)?;
    put_attribute(out, b"cy", y as u64)?;
    put_attribute(out, b"r", radius as u64)?;
    out.extend_from_slice(b"/>\n")
}

/// Writes the beginning of a line of letters of a class, at a place.
#[tactic(auto, unfolding(crate::specs::Shapes::letters_begin))]
pub fn open_letters(out: &mut Vec<u8>, class: &[u8], x: u16, y: u16) -> Result<(), AllocError>
    ensures ok { OnOk result (out.new.items ≡ out.old.items ++ letters_begin class.now x y) }
{
    open(out, b"text", class)?;
    put_place(out, x, y)?;
    out.extend_from_slice(b">")
}

/// Writes its end.
pub fn close_letters(out: &mut Vec<u8>) -> Result<(), AllocError>
    ensures ok { OnOk result (out.new.items ≡ out.old.items ++ codes "</text>\n") }
{
    out.extend_from_slice(b"</text>\n")
}

/// Writes a line of letters of a class, at a place.
#[tactic(auto, unfolding(crate::specs::Shapes::letters_text))]
pub fn put_letters(
    out: &mut Vec<u8>,
    class: &[u8],
    x: u16,
    y: u16,
    letters: &[u8],
) -> Result<(), AllocError>
    ensures ok { OnOk result (out.new.items ≡ out.old.items ++ letters_text class.now x y letters.now) }
{
    open_letters(out, class, x, y)?;
    out.extend_from_slice(letters)?;
    close_letters(out)
}

// Writes a point of a path.
#[tactic(auto, unfolding(crate::specs::Shapes::point))]
fn put_point(out: &mut Vec<u8>, x: u16, y: u16) -> Result<(), AllocError>
    ensures ok { OnOk result (out.new.items ≡ out.old.items ++ point x y) }
{
    out.extend_from_slice(b" ")?;
    put_number(out, x as u64)?;
    out.extend_from_slice(b" ")?;
    put_number(out, y as u64)
}

// Writes the two points by which a curve is pulled, and its end.
#[tactic(auto, unfolding(crate::specs::Shapes::curve_end))]
fn put_curve_end(out: &mut Vec<u8>, from: Port, to: Port) -> Result<(), AllocError>
    ensures ok { OnOk result (out.new.items ≡ out.old.items ++ curve_end from to) }
{
    put_point(out, from.pull_x, from.pull_y)?;
    put_point(out, to.pull_x, to.pull_y)?;
    put_point(out, to.x, to.y)
}

/// Writes a curve of a class from one end to the other.
#[tactic(auto, unfolding(crate::specs::Shapes::curve_text))]
pub fn put_curve(out: &mut Vec<u8>, class: &[u8], from: Port, to: Port) -> Result<(), AllocError>
    ensures ok { OnOk result (out.new.items ≡ out.old.items ++ curve_text class.now from to) }
{
    open(out, b"path", class)?;
    out.extend_from_slice(b" d='M")?;
    put_point(out, from.x, from.y)?;
    out.extend_from_slice(b" C")?;
    put_curve_end(out, from, to)?;
    out.extend_from_slice(b"'/>\n")
}
