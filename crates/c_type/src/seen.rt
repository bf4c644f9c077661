//! The labels of a switch so far.

ghost use Rattle.std.specs.Prelude.{◌≡◌, ◌∷◌, [], ◌++◌, Some, None, not};
ghost use Rattle.c_type_expr.specs.Blames.{unless};
ghost use Rattle.c_type.specs.Labels.{label_among};
ghost use Rattle.c_type.specs.inside.Seen.{Knows, Grows};
ghost use Rattle.c_type.specs.inside.Runs.{Moves};

use c_type_expr::TypeFault;
use std::alloc::{AllocError, Global};
use std::collections::HashSet;
use std::marker::Model;

/// The labels of a switch so far, which contracts see as the list of their words, none for `default`.
///
/// To find whether a label is one of them takes one hash, however many there are.
#[derive(Drop)]
pub struct SeenLabels {
    labels: Vec<Option<u64>>,
    words: HashSet<u64>,
    has_default: bool,
}

impl Model for SeenLabels {
    ghost use Rattle.std.specs.Prelude.{List, Option, ℕ};
    ghost use Rattle.c_type.specs.inside.Seen.{Knows};

    ghost Value = { List (Option ℕ) };

    ghost view = { λ s. s.labels.items };

    ghost invariant = { λ s. Knows s.labels.items s.words s.has_default };
}

/// One case more, unless it is one of the labels. Want of memory is the only error.
fn add_case(
    labels: &mut Vec<Option<u64>>,
    words: &mut HashSet<u64>,
    has_default: bool,
    word: u64,
) -> Result<bool, AllocError>
    requires { Knows labels.old.items words.old has_default }
    ensures kept { Knows labels.new.items words.new has_default }
    ensures grown { Grows (Some word) labels.old.items labels.new.items result }
{
    labels.reserve(1)?;
    match words.insert(word) {
        Err(_) => Err(AllocError),
        Ok(is_new) => {
            if is_new {
                labels.push_reserved(Some(word));
            }
            Ok(is_new)
        }
    }
}

/// `default`, unless it is one of the labels. Want of memory is the only error.
fn add_default(
    labels: &mut Vec<Option<u64>>,
    words: &HashSet<u64>,
    has_default: &mut bool,
) -> Result<bool, AllocError>
    requires { Knows labels.old.items words.now has_default.old }
    ensures kept { Knows labels.new.items words.now has_default.new }
    ensures grown { Grows None labels.old.items labels.new.items result }
{
    if *has_default {
        return Ok(false);
    }
    labels.reserve(1)?;
    labels.push_reserved(None);
    *has_default = true;
    Ok(true)
}

/// One label more, unless it is one of them. Want of memory is the only error.
fn add_label(
    labels: &mut Vec<Option<u64>>,
    words: &mut HashSet<u64>,
    has_default: &mut bool,
    word: Option<u64>,
) -> Result<bool, AllocError>
    requires { Knows labels.old.items words.old has_default.old }
    ensures kept { Knows labels.new.items words.new has_default.new }
    ensures grown { Grows word labels.old.items labels.new.items result }
{
    match word {
        None => add_default(labels, words, has_default),
        Some(word) => add_case(labels, words, *has_default, word),
    }
}

impl SeenLabels {
    /// No label at all. It takes no memory.
    pub fn new(alloc: Global) -> SeenLabels
        ensures { result ≡ [] }
    {
        SeenLabels {
            labels: Vec::new(alloc),
            words: HashSet::new(alloc),
            has_default: false,
        }
    }

    /// One label more, which is another than those before it.
    pub fn add(&mut self, word: Option<u64>, offset: u32) -> Result<(), TypeFault>
        ensures { Moves (unless (not (label_among word self.old)) (TypeFault.Twice offset)) tt
            (self.old ++ word ∷ []) self.new result }
    {
        match add_label(
            &mut self.labels,
            &mut self.words,
            &mut self.has_default,
            word,
        ) {
            Ok(true) => Ok(()),
            Ok(false) => Err(TypeFault::Twice(offset)),
            Err(_) => Err(TypeFault::Memory),
        }
    }
}
