ghost use Rattle.std.specs.Prelude.{◌≡◌, ◌↔◌, nat_eq, IfOk, IsTrue};
ghost use Rattle.c_tree.specs.Words.{bytes_of};
ghost use Rattle.std.specs.Cmp.{partial_equiv_from_equiv};
ghost use Rattle.std.specs.Cmp.Lexicographic.{pointwise, nat_list_eq_equiv};
ghost use Rattle.std.specs.Hash as fed;
ghost use Rattle.std.proofs.Common.{rules};
ghost use Rattle.std.specs.Cmp.Rules.{hashing};

use base::Boxed;
use std::alloc::{AllocError, Global};
use std::hash::{Hash, Hasher};
use std::marker::Model;

/// How many bytes a word has at most that takes no memory of its own.
const SHORT_WORD_BYTES: usize = 14;

/// The bytes of a word: in place where they are few. Both forms take 16 bytes, so that a node of the tree stays
/// small.
#[derive(Debug, Drop)]
enum Bytes {
    Short {
        length: u8,
        cells: [u8; SHORT_WORD_BYTES],
    },
    Long(Boxed<Vec<u8>>),
}

/// An identifier (C17 6.4.2), seen as the list of its bytes. A short one takes no memory of its own.
#[derive(Debug, Drop)]
pub struct Word {
    bytes: Bytes,
}

impl Model for Word {
    ghost use Rattle.std.specs.Prelude.{List, ℕ};
    ghost use Rattle.c_tree.specs.Words.{bytes_of};

    ghost Value = { List ℕ };

    ghost view = { λ w. bytes_of w.bytes };
}

/// The bytes of a word, in place or in memory of their own.
fn kept(alloc: Global, bytes: &[u8]) -> Result<Bytes, AllocError>
    ensures ok { IfOk result (λ b. bytes_of b ≡ bytes.now) }
{
    let length = bytes.len();
    if length <= SHORT_WORD_BYTES {
        let mut cells = [0; SHORT_WORD_BYTES];
        cells[..length].copy_from_slice(bytes);
        Ok(Bytes::Short {
            length: length as u8,
            cells,
        })
    } else {
        let bytes = Vec::from_slice(alloc, bytes)?;
        Ok(Bytes::Long(Boxed::new(alloc, bytes)?))
    }
}

impl Word {
    /// A word of these bytes. Want of memory is the only error.
    pub fn from_slice(alloc: Global, bytes: &[u8]) -> Result<Word, AllocError>
        ensures ok { IfOk result (λ w. w ≡ bytes.now) }
    {
        Ok(Word {
            bytes: kept(alloc, bytes)?,
        })
    }

    /// The bytes, lent.
    pub fn as_slice(&self) -> &[u8]
        ensures value { result.now ≡ self.now }
    {
        match &self.bytes {
            Bytes::Short { length, cells } => &cells[..usize::from(*length).min(SHORT_WORD_BYTES)],
            Bytes::Long(bytes) => bytes.get().as_slice(),
        }
    }

    /// The same word once more. Want of memory is the only error.
    pub fn copy(&self, alloc: Global) -> Result<Word, AllocError>
        ensures ok { IfOk result (λ w. w ≡ self.now) }
    {
        match &self.bytes {
            Bytes::Short { length, cells } => Ok(Word {
                bytes: Bytes::Short {
                    length: *length,
                    cells: *cells,
                },
            }),
            Bytes::Long(bytes) => Word::from_slice(alloc, bytes.get().as_slice()),
        }
    }
}

/// Whether two runs of bytes are the same. Most are short, and a loop over them takes less than comparing by vectors.
pub fn same_bytes(a: &[u8], b: &[u8]) -> bool
    ensures { IsTrue result ↔ (a.now ≡ b.now) }
{
    if a.len() != b.len() {
        return false;
    }
    for (i, byte) in a.iter().enumerate() {
        if *byte != b[i] {
            return false;
        }
    }
    true
}

impl PartialEq for Word {
    ghost eq = { pointwise nat_eq };

    ghost laws = { partial_equiv_from_equiv nat_list_eq_equiv };

    fn eq(&self, other: &Word) -> bool {
        same_bytes(self.as_slice(), other.as_slice())
    }
}

impl Eq for Word {
    ghost laws = { nat_list_eq_equiv };
}

impl Hash for Word {
    ghost hash_input = { fed.slice fed.u8 };

    ghost respects_eq = { Prim.search (hashing, rules) };

    fn hash<H: Hasher>(&self, state: &mut H) {
        self.as_slice().hash(state);
    }
}
