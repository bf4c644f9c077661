//! The groups of lines that are open (C17 6.10.1).

ghost use Rattle.std.specs.Prelude.{◌≡◌, [], ◌∷◌, OnOk, OnErr, MatchOption};
ghost use Rattle.c_pre.specs.Groups.{is_read};

use std::alloc::{AllocError, Global};
use std::marker::Model;

/// A group that is open: where its `#ifdef` or `#ifndef` stands, whether the lines around it are read, whether its
/// own are, and whether they stand behind its `#else`.
#[derive(Clone, Copy, Debug, PartialEq, Eq)]
pub struct Group {
    pub offset: u32,
    pub around: bool,
    pub read: bool,
    pub is_else: bool,
}

/// The groups that are open, the innermost first.
#[derive(Drop)]
pub struct Groups {
    open: Vec<Group>,
}

impl Model for Groups {
    ghost use Rattle.std.specs.Prelude.{List, reverse};
    ghost use Rattle.c_pre.specs.declared.groups.Group.{Group};

    ghost Value = { List Group };

    ghost view = { λ g. reverse g.open.items };
}

impl Groups {
    /// No group.
    pub fn new(alloc: Global) -> Groups
        ensures { result ≡ [] }
    {
        Groups {
            open: Vec::new(alloc),
        }
    }

    /// Opens a group in the innermost one. Want of memory is the only error.
    pub fn push(&mut self, group: Group) -> Result<(), AllocError>
        ensures ok { OnOk result (self.new ≡ group ∷ self.old) }
        ensures err { OnErr result (self.new ≡ self.old) }
    {
        self.open.push(group)?;
        Ok(())
    }

    /// Closes the innermost group.
    pub fn pop(&mut self) -> Option<Group>
        ensures { MatchOption result ((self.old ≡ []) × (self.new ≡ [])) (λ first. self.old ≡ first ∷ self.new) }
    {
        self.open.pop()
    }

    /// Are the lines of the innermost group read?
    pub fn is_read(&self) -> bool
        ensures { result ≡ is_read self.now }
    {
        match self.open.last() {
            Some(group) => group.read,
            None => true,
        }
    }
}
