//! Names of blocks that stand for static objects.

ghost use Rattle.std.specs.Prelude.{◌≡◌, ◌∷◌, [], option_map, IfOk, OnOk};
ghost use Rattle.c_locals.specs.Names as names;

use c_library::form_copied;
use c_tree::{Form, Lexeme, Word, same_bytes};
use std::alloc::{AllocError, Global};
use std::marker::Model;

/// A name that a block declares, with how many braces are open there: the name of the object that it stands for, or
/// none where it is declared anew.
#[derive(Drop)]
pub struct Entry {
    pub name: Word,
    pub to: Option<Word>,
    pub block: usize,
}

/// The last digit of a number, as a byte.
fn digit(n: usize) -> u8
    ensures { result ≡ names.digit n }
{
    48 + (n % 10) as u8
}

/// The name of the object with this number. Want of memory is the only error.
pub fn object_name(alloc: Global, name: &[u8], n: usize) -> Result<Word, AllocError>
    ensures { IfOk result (λ w. w ≡ names.object_name name.now n) }
{
    let mut bytes = Vec::from_slice(alloc, name)?;
    bytes.push(b'.')?;
    bytes.push(digit(n / 1000))?;
    bytes.push(digit(n / 100))?;
    bytes.push(digit(n / 10))?;
    bytes.push(digit(n))?;
    Word::from_slice(alloc, &bytes)
}

impl Entry {
    /// The name of its object, if this is the name, or else the name that was known.
    fn or_latest<'a>(&'a self, name: &[u8], latest: Option<&'a [u8]>) -> Option<&'a [u8]>
        ensures { option_map (λ w. w.now) result
            ≡ names.or_latest name.now self.now (option_map (λ w. w.now) latest.entry) }
    {
        if same_bytes(self.name.as_slice(), name) {
            object(&self.to)
        } else {
            latest
        }
    }
}

/// The entries of the blocks that are open, which contracts see as their list, the latest first.
#[derive(Drop)]
pub struct Names {
    items: Vec<Entry>,
}

impl Model for Names {
    ghost use Rattle.std.specs.Prelude.{List, reverse};
    ghost use Rattle.c_locals.specs.declared.names.Entry.{Entry};

    ghost Value = { List Entry };

    ghost view = { λ n. reverse n.items.items };
}

/// The name of an entry's object.
fn object(to: &Option<Word>) -> Option<&[u8]>
    ensures { option_map (λ w. w.now) result ≡ to.now }
{
    match to {
        None => None,
        Some(word) => Some(word.as_slice()),
    }
}

impl Names {
    /// No entry. It takes no memory.
    pub fn new(alloc: Global) -> Names
        ensures { result ≡ [] }
    {
        Names {
            items: Vec::new(alloc),
        }
    }

    /// Adds an entry. Want of memory is the only error.
    pub fn push(&mut self, entry: Entry) -> Result<(), AllocError>
        ensures { OnOk result (self.new ≡ entry ∷ self.old) }
    {
        self.items.push(entry)?;
        Ok(())
    }

    /// Takes off the latest entry.
    fn pop(&mut self)
        ensures { self.new ≡ names.earlier self.old }
    {
        self.items.pop();
    }

    /// Is the latest entry of this block, or of one within it?
    fn is_within(&self, block: usize) -> bool
        ensures { result ≡ names.is_within block self.now }
    {
        match self.items.last() {
            Some(entry) => block <= entry.block,
            None => false,
        }
    }

    /// Takes off the entries of this block, and of those within it.
    #[tactic(auto, using(crate::proofs::NameFacts::one_off, crate::proofs::NameFacts::all_off))]
    pub fn close(&mut self, block: usize)
        ensures { self.new ≡ names.around block self.old }
    {
        while self.is_within(block) {
            self.pop();
        }
    }

    /// The name of the object that a name stands for.
    #[tactic(auto, using(crate::proofs::NameFacts::found_is_latest))]
    pub fn found(&self, name: &[u8]) -> Option<&[u8]>
        ensures { option_map (λ w. w.now) result ≡ names.found name.now self.now }
    {
        let mut latest = None;
        let mut rest = self.items.as_slice();
        while let [entry, more @ ..] = rest {
            latest = entry.or_latest(name, latest);
            rest = more;
        }
        latest
    }

    /// The name of the object that a name stands for, or the name itself. Want of memory is the only error.
    fn name_for(&self, alloc: Global, name: &Word) -> Result<Word, AllocError>
        ensures { IfOk result (λ w. w ≡ names.name_for name.now (names.found name.now self.now)) }
    {
        match self.found(name.as_slice()) {
            None => name.copy(alloc),
            Some(to) => Word::from_slice(alloc, to),
        }
    }

    /// A form, with the object's name for a name that has one. Want of memory is the only error.
    fn form_for(&self, alloc: Global, form: &Form) -> Result<Form, AllocError>
        ensures { IfOk result (λ f. f ≡ names.form_for self.now form.now) }
    {
        match form {
            Form::Name(name) => Ok(Form::Name(self.name_for(alloc, name)?)),
            other => form_copied(alloc, other),
        }
    }

    /// And a token.
    pub fn renamed(&self, alloc: Global, token: &Lexeme) -> Result<Lexeme, AllocError>
        ensures { IfOk result (λ t. t ≡ names.renamed self.now token.now) }
    {
        Ok(Lexeme {
            offset: token.offset,
            form: self.form_for(alloc, &token.form)?,
        })
    }
}
