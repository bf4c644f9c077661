//! A block of an image as a picture: its dataflow graph on the grid of 4 by 4 tiles, as SVG.
//!
//! What a drawing is stands in specs/: where each part stands (`Positions`), the elements of which it is made
//! (`Shapes`), the arcs (`Arcs`), the boxes (`Boxes`), what is the same in each drawing (`Page`), and the whole
//! (`Drawing`).
#![tactic(auto)]

mod arcs;
mod boxes;
mod drawing;
mod law;
mod page;
mod positions;
mod shapes;

pub use drawing::draw;
pub use law::slots_stand_apart;
pub use positions::Port;
