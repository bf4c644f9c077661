ghost use Rattle.std.specs.Prelude.{◌≡◌, [], ◌∷◌, OnOk, OnErr};
ghost use Rattle.std.specs.Option.{option_copied};
ghost use Rattle.c_type_expr.specs.Scope.{look_up, is_here, opened, closed, declared_in, bound};
ghost use Rattle.c_type_expr.specs.inside.Frames.{first_start};

use crate::entries::{add, last_start, place_of, unwind};
use crate::meaning::{Binding, Entry, Meaning};
use c_tree::Word;
use std::alloc::{AllocError, Global};
use std::marker::Model;

/// The names in scope, which contracts see as the open blocks, the innermost first.
///
/// A look-up takes one hash, however many names there are.
#[derive(Drop)]
pub struct Scopes {
    entries: Vec<Entry>,
    starts: Vec<usize>,
    heads: Vec<Option<usize>>,
}

impl Model for Scopes {
    ghost use Rattle.std.specs.Prelude.{length, reverse};
    ghost use Rattle.c_type_expr.specs.Scope.{Scope, frames};
    ghost use Rattle.c_type_expr.specs.inside.Frames.{StartsFit};
    ghost use Rattle.c_type_expr.specs.inside.Chains.{Kept};

    ghost Value = { Scope };

    ghost view = { λ s. frames (reverse s.starts.items) (reverse s.entries.items) };

    ghost invariant = { λ s. Kept (reverse s.entries.items) s.heads.items
        × StartsFit (reverse s.starts.items) (length s.entries.items) };
}

impl Scopes {
    /// No name at all, and one block.
    pub fn new(alloc: Global) -> Scopes
        ensures { result ≡ [] ∷ [] }
    {
        Scopes {
            entries: Vec::new(alloc),
            starts: Vec::new(alloc),
            heads: Vec::new(alloc),
        }
    }

    /// The innermost meaning of a name.
    #[inline(always)]
    pub fn look_up(&self, name: &Word) -> Option<&Meaning>
        ensures { option_copied result ≡ look_up self.now name.now }
    {
        match place_of(&self.entries, &self.heads, name) {
            Some(at) => Some(&self.entries[at].binding.meaning),
            None => None,
        }
    }

    /// Whether the innermost block declares the name.
    pub fn is_here(&self, name: &Word) -> bool
        ensures { result ≡ is_here self.now name.now }
    {
        let start = last_start(&self.starts);
        match place_of(&self.entries, &self.heads, name) {
            Some(at) => start <= at,
            None => false,
        }
    }

    /// Begins a block. Want of memory is the only error.
    pub fn open(&mut self) -> Result<(), AllocError>
        ensures ok { OnOk result (self.new ≡ opened self.old) }
        ensures err { OnErr result (self.new ≡ self.old) }
    {
        self.starts.push(self.entries.len())?;
        Ok(())
    }

    /// Leaves the innermost block; the outermost one stays.
    pub fn close(&mut self)
        ensures { self.new ≡ closed self.old }
    {
        if let Some(start) = self.starts.pop() {
            unwind(&mut self.entries, self.heads.as_mut_slice(), start);
        }
    }

    /// Declares a name in the innermost block; an older meaning of it is hidden. Want of memory is the
    /// only error.
    pub fn declare(&mut self, alloc: Global, name: Word, meaning: Meaning) -> Result<(), AllocError>
        ensures ok { OnOk result (self.new ≡ declared_in (bound name meaning) self.old) }
        ensures err { OnErr result (self.new ≡ self.old) }
    {
        let binding = Binding { name, meaning };
        add(alloc, &mut self.entries, &mut self.heads, binding)?;
        Ok(())
    }
}
