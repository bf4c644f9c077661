//! A record that comes byte by byte, against the one that is wanted.
ghost use Rattle.std.specs.Prelude.{◌≡◌, ◌<◌, ◌++◌, ◌∷◌, [], ℕ, List, length, slice_index, None, Some};
ghost use Rattle.trips_isa.specs.declared.block.Block.{Block};
ghost use Rattle.trace_verify.specs.Spelling.{Listed};
ghost use Rattle.trace_verify.specs.FirstFault.{record_size, IsShort};
ghost use Rattle.trace_verify.specs.Reading.{Progress, record_seen};
ghost use Rattle.trace_verify.specs.inside.Judging.{by_judged};

use arrayvec::ArrayVec;

/// What a byte more makes of a record.
#[derive(Clone, Copy, Debug, PartialEq, Eq)]
pub enum Judged {
    /// more belong to it
    More,
    /// it is the one that is wanted
    Right,
    /// it is none, or another
    Wrong,
}

// How many bytes a record has that begins with this one; no record begins with another.
fn record_size(first: u8) -> Option<usize>
    ensures { result ≡ record_size first }
{
    if first >= 16 {
        None
    } else if first == 0 {
        Some(1)
    } else if first % 4 == 1 {
        Some(1)
    } else if first % 4 == 2 {
        Some(9)
    } else {
        None
    }
}

// The same of the first of some bytes.
fn size_of(seen: &[u8]) -> Option<usize>
    requires { 0 < length seen.now }
    ensures { result ≡ record_size (slice_index seen.now 0) }
{
    record_size(seen[0])
}

// Bytes that have come, by the size of their record.
fn judge(seen: &[u8], size: Option<usize>, want: &[u8]) -> Judged
    ensures judged { (blocks : List Block) (exit : ℕ) (l : Listed) (ls : List Listed) (c : Progress) → l.bytes
        ≡ want.now
        → record_seen blocks exit l ls seen.now c size ≡ by_judged blocks exit l ls c seen.now result }
    ensures none { size ≡ None → result ≡ Judged.More → ⊥ }
    ensures more { (n : ℕ) → size ≡ Some n → result ≡ Judged.More → length seen.now ≡ n → ⊥ }
{
    match size {
        None => Judged::Wrong,
        Some(size) => {
            if seen.len() != size {
                Judged::More
            } else if seen == want {
                Judged::Right
            } else {
                Judged::Wrong
            }
        }
    }
}

/// Takes a byte more of a record of which some have come.
pub fn take_byte(seen: &mut ArrayVec<u8, 12>, byte: u8, want: &[u8]) -> Judged
    requires { length seen.old.items < 12 }
    ensures seen { seen.new.items ≡ seen.old.items ++ byte ∷ [] }
    ensures judged { (blocks : List Block) (exit : ℕ) (l : Listed) (ls : List Listed) (c : Progress) → l.bytes
        ≡ want.now
        → record_seen blocks exit l ls (seen.old.items ++ byte ∷ []) c
        (record_size (slice_index (seen.old.items ++ byte ∷ []) 0))
        ≡ by_judged blocks exit l ls c (seen.old.items ++ byte ∷ []) result }
    ensures short { IsShort seen.old.items → result ≡ Judged.More → IsShort (seen.old.items ++ byte ∷ []) }
{
    seen.push(byte);
    let size = size_of(seen.as_slice());
    judge(seen.as_slice(), size, want)
}
