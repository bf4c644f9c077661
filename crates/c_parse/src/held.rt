ghost use Rattle.std.specs.Prelude.{◌≡◌};

use std::marker::Model;

/// A part that is kept while others are read, which contracts see as the part itself.
#[derive(Drop)]
pub struct Held<T> {
    inner: T,
}

impl<T> Model for Held<T> {
    ghost Value = { T };

    ghost coded = { T.code };

    ghost view = { λ h. h.inner };
}

impl<T> Held<T> {
    pub fn new(inner: T) -> Held<T>
        ensures value { result ≡ inner }
    {
        Held { inner }
    }

    pub fn into_inner(self) -> T
        ensures value { result ≡ self }
    {
        let Held { inner } = self;
        inner
    }
}
