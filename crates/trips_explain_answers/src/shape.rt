//! What a file is explained as.

ghost use Rattle.std.specs.Prelude.{◌≡◌};
ghost use Rattle.trips_explain_answers.specs.Explained.{shape_named};

/// What a file is explained as.
#[derive(Clone, Copy, Debug, PartialEq, Eq)]
pub enum Shape {
    Source,
    Target,
    Image,
}

/// What a file is explained as, by the ending of its name.
pub fn shape_named(file: &str) -> Shape
    ensures { result ≡ shape_named file.now }
{
    let bytes = file.as_bytes();
    if bytes.ends_with(b".img") {
        Shape::Image
    } else if bytes.ends_with(b".tasl") {
        Shape::Target
    } else {
        Shape::Source
    }
}
