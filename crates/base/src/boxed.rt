ghost use Rattle.std.specs.Prelude.{◌≡◌, IfOk};

use std::alloc::{AllocError, Global};
use std::marker::Model;

/// A value on the heap, which contracts see as the value itself.
#[derive(Debug)]
pub struct Boxed<T> {
    inner: Box<T>,
}

// A tree is let go along its deepest path, and not in line, so that a node's frame has no room for its operands.
impl<T: Drop> Drop for Boxed<T> {
    #[inline(never)]
    fn drop(self) {
        let Boxed { inner: _ } = self;
    }
}

impl<T> Model for Boxed<T> {
    ghost Value = { T };

    ghost coded = { T.code };

    ghost view = { λ b. b.inner.value };
}

impl<T> Boxed<T> {
    /// The value, lent.
    pub fn get(&self) -> &T
        ensures value { result.now ≡ self.now }
    {
        &self.inner
    }

    /// The value, taken off the heap.
    pub fn into_inner(self) -> T
        ensures value { result ≡ self }
    {
        let Boxed { inner } = self;
        Box::into_inner(inner)
    }
}

impl<T: Drop> Boxed<T> {
    /// Puts a value on the heap. Want of memory is the only error.
    pub fn new(alloc: Global, value: T) -> Result<Boxed<T>, AllocError>
        ensures ok { IfOk result (λ b. b ≡ value) }
    {
        Ok(Boxed {
            inner: Box::new(alloc, value)?,
        })
    }
}
