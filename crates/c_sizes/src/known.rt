//! The names that are declared, and what they are.

ghost use Rattle.std.specs.Prelude.{◌≡◌, [], ◌∷◌, reverse, OnOk};
ghost use Rattle.std.specs.Option.{option_copied};
ghost use Rattle.std.specs.Str.{bytes_eq};
ghost use Rattle.c_sizes.specs.Scopes as scopes;
ghost use Rattle.c_sizes.specs.inside.Latest.{later};

use crate::shape::Shape;
use c_tree::{Mark, Word, same_bytes};
use std::alloc::{AllocError, Global};
use std::marker::Model;

/// A name that is declared, with what it is; or the `{` of a block.
#[derive(Debug, Drop)]
pub enum Entry {
    Block,
    Name { name: Word, shape: Shape },
}

/// Names and blocks, the last one first.
#[derive(Drop)]
pub struct Entries {
    items: Vec<Entry>,
}

impl Model for Entries {
    ghost use Rattle.std.specs.Prelude.{List, reverse};
    ghost use Rattle.c_sizes.specs.declared.known.Entry.{Entry};

    ghost Value = { List Entry };

    ghost view = { λ e. reverse e.items.items };
}

/// Are two names one?
fn same_name(a: &[u8], b: &[u8]) -> bool
    ensures { result ≡ bytes_eq a.now b.now }
{
    same_bytes(a, b)
}

/// What an entry says of a name, or else what those before it say.
fn later<'a>(name: &[u8], entry: &'a Entry, so_far: Option<&'a Shape>) -> Option<&'a Shape>
    ensures { option_copied result ≡ later name.now entry.now (option_copied so_far.entry) }
{
    match entry {
        Entry::Block => so_far,
        Entry::Name { name: other, shape } => {
            if same_name(name, other.as_slice()) {
                Some(shape)
            } else {
                so_far
            }
        }
    }
}

/// What the last of these entries with this name says.
#[tactic(auto, using(crate::proofs::LatestNames::latest_is))]
fn found<'a>(name: &[u8], entries: &'a [Entry]) -> Option<&'a Shape>
    ensures { option_copied result ≡ scopes.found name.now (reverse entries.now) }
{
    let mut latest = None;
    let mut rest = entries;
    while let [entry, more @ ..] = rest {
        latest = later(name, entry, latest);
        rest = more;
    }
    latest
}

/// Is it the `{` of a block?
fn is_block(entry: &Entry) -> bool
    ensures { result ≡ scopes.is_block entry.now }
{
    match entry {
        Entry::Block => true,
        _ => false,
    }
}

impl Entries {
    /// No entry. It takes no memory.
    fn new(alloc: Global) -> Entries
        ensures { result ≡ [] }
    {
        Entries {
            items: Vec::new(alloc),
        }
    }

    /// Puts an entry in front. Want of memory is the only error.
    fn push(&mut self, entry: Entry) -> Result<(), AllocError>
        ensures { OnOk result (self.new ≡ entry ∷ self.old) }
    {
        self.items.push(entry)?;
        Ok(())
    }

    /// Takes the names of the innermost block away.
    fn close(&mut self)
        ensures { self.new ≡ scopes.closed self.old }
    {
        while let Some(entry) = self.items.pop() {
            if is_block(&entry) {
                return;
            }
        }
    }

    /// What they say of a name.
    fn find(&self, name: &[u8]) -> Option<&Shape>
        ensures { option_copied result ≡ scopes.found name.now self.now }
    {
        found(name, self.items.as_slice())
    }
}

/// The names that are in scope, those of the file apart.
#[derive(Drop)]
pub struct Known {
    pub file: Entries,
    pub inner: Entries,
}

impl Known {
    /// No name. It takes no memory.
    pub fn new(alloc: Global) -> Known
        ensures { result ≡ scopes.none }
    {
        Known {
            file: Entries::new(alloc),
            inner: Entries::new(alloc),
        }
    }

    /// What a name is, if it is in scope.
    pub fn find(&self, name: &[u8]) -> Option<&Shape>
        ensures { option_copied result ≡ scopes.find name.now self.now }
    {
        match self.inner.find(name) {
            None => self.file.find(name),
            found => found,
        }
    }

    /// Adds a name, outside of all brackets or not. Want of memory is the only error.
    pub fn add(&mut self, is_outside: bool, name: Word, shape: Shape) -> Result<(), AllocError>
        ensures { OnOk result (self.new ≡ scopes.with_name is_outside name shape self.old) }
    {
        let entry = Entry::Name { name, shape };
        if is_outside {
            self.file.push(entry)
        } else {
            self.inner.push(entry)
        }
    }

    /// Behind a token that ends what may be outside of all brackets: there parameters end.
    fn end(&mut self, alloc: Global, is_outside: bool)
        ensures { self.new ≡ scopes.ended is_outside self.old }
    {
        if is_outside {
            self.inner = Entries::new(alloc);
        }
    }

    /// Goes past a punctuator, behind which nothing is open or something. Want of memory is the only error.
    pub fn pass(&mut self, alloc: Global, is_outside: bool, mark: Mark) -> Result<(), AllocError>
        ensures { OnOk result (self.new ≡ scopes.past is_outside mark self.old) }
    {
        match mark {
            Mark::LeftBrace => self.inner.push(Entry::Block),
            Mark::RightBrace => {
                self.inner.close();
                self.end(alloc, is_outside);
                Ok(())
            }
            Mark::Semicolon => {
                self.end(alloc, is_outside);
                Ok(())
            }
            _ => Ok(()),
        }
    }
}
