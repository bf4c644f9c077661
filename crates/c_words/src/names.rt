//! Lists of names.

ghost use Rattle.std.specs.Prelude.{◌≡◌, [], ◌∷◌, ◌++◌, OnOk};
ghost use Rattle.c_words.specs.Names.{is_among};
ghost use Rattle.c_words.specs.inside.Agree.{Agree};

use c_tree::Word;
use std::alloc::{AllocError, Global};
use std::collections::HashSet;
use std::marker::Model;

/// Names, which contracts see as their list. To find whether a name is one of them takes one hash.
#[derive(Drop)]
pub struct Names {
    words: Vec<Word>,
    set: HashSet<Word>,
}

impl Model for Names {
    ghost use Rattle.std.specs.Prelude.{List, ℕ};
    ghost use Rattle.c_words.specs.inside.Agree.{Agree};

    ghost Value = { List (List ℕ) };

    ghost view = { λ n. n.words.items };

    ghost invariant = { λ n. Agree n.words.items n.set };
}

/// One name more, in the list and in the set. Want of memory is the only error.
fn add_both(
    words: &mut Vec<Word>,
    set: &mut HashSet<Word>,
    word: Word,
    again: Word,
) -> Result<(), AllocError>
    requires before { Agree words.old.items set.old }
    requires same { again ≡ word }
    ensures agree { Agree words.new.items set.new }
    ensures ok { OnOk result (words.new.items ≡ words.old.items ++ word ∷ []) }
{
    words.reserve(1)?;
    match set.insert(again) {
        Err(_) => Err(AllocError),
        Ok(_) => {
            words.push_reserved(word);
            Ok(())
        }
    }
}

impl Names {
    /// No name. It takes no memory.
    #[tactic(auto, using(crate::proofs::NameFacts::agree_at_first))]
    pub fn new(alloc: Global) -> Names
        ensures { result ≡ [] }
    {
        Names {
            words: Vec::new(alloc),
            set: HashSet::new(alloc),
        }
    }

    /// One name more. Want of memory is the only error.
    pub fn add(&mut self, alloc: Global, word: &Word) -> Result<(), AllocError>
        ensures { OnOk result (self.new ≡ self.old ++ word.now ∷ []) }
    {
        let first = word.copy(alloc)?;
        let second = word.copy(alloc)?;
        add_both(&mut self.words, &mut self.set, first, second)
    }

    /// Is the name one of them?
    pub fn has(&self, word: &Word) -> bool
        ensures { result ≡ is_among word.now self.now }
    {
        self.set.contains(word)
    }
}
