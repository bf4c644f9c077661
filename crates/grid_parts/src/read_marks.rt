//! Which read a register bank answers.
ghost use Rattle.std.specs.Prelude.{◌≡◌, ◌<◌, ◌&&◌, ℕ, false, All, IfSome, length, slice_index_or};
ghost use Rattle.operand_net.specs.Marks.{has_bit};
ghost use Rattle.commit_flush_spec.specs.inside.Laws.{AreNumbers};
ghost use Rattle.commit_flush_spec.specs.Window as event;
ghost use Rattle.commit_flush_spec.specs.Window.{can};
ghost use Rattle.grid_cycle_spec.specs.Acting.{is_done};
ghost use Rattle.grid_cycle_spec.specs.Choosing.{eldest, reads};
ghost use Rattle.grid_cycle_spec.specs.Grid.{numbers_of};
ghost use Rattle.grid_parts.specs.Bits.{frame_bit};
ghost use Rattle.grid_parts.specs.inside.Choices.{answers, in_bank, lowest_read, may_read};
ghost use Rattle.grid_parts.specs.inside.Marked.{ReadsMarked};

use crate::bits::{lowest_bit, with_bit};
use crate::windows::Windows;

/// Marks of the reads of each of the eight frames, as bits.
#[derive(Debug, Drop)]
pub struct ReadMarks {
    pub words: [u64; 8],
}

// Whether a register is in a bank.
fn is_in(bank: u8, register: Option<u8>) -> bool
    ensures { result ≡ in_bank bank register }
{
    match register {
        Some(register) => register % 4 == bank,
        None => false,
    }
}

// Whether a bank may answer a read of a frame.
fn answers_read<V: Windows>(window: &V, bank: u8, frame: u8, read: u8) -> bool
    requires frame { frame < 8 }
    ensures { result ≡ may_read (V.blocks window.now) (V.budget window.now) (V.held window.now) bank frame read }
{
    is_in(bank, window.register_of(frame, read)) && window.can_read(frame, read)
}

// The lowest read of a frame that a bank may answer, where each that can be answered is marked.
fn readable_in<V: Windows>(window: &V, bank: u8, frame: u8, marks: u64) -> Option<u8>
    requires frame { frame < 8 }
    requires marks { (r : ℕ) → r < 32 → has_bit marks r ≡ false → is_done (can (V.blocks window.now)
        (V.budget window.now) (event.Read frame r) (V.held window.now)) ≡ false }
    ensures value { result
        ≡ lowest_read (V.blocks window.now) (V.budget window.now) (V.held window.now) bank frame }
    ensures within { IfSome result (λ r. r < 32) }
{
    let mut read = lowest_bit(marks, 0);
    while read < 32 {
        if answers_read(window, bank, frame, read) {
            return Some(read);
        }
        read = lowest_bit(marks, read + 1);
    }
    None
}

// The same, where the marks of all frames are at hand.
fn readable_of<V: Windows>(window: &V, bank: u8, frame: u8, marks: &ReadMarks) -> Option<u8>
    requires frame { frame < 8 }
    requires marked { ReadsMarked (V.blocks window.now) (V.budget window.now) (V.held window.now) marks.now.words }
    ensures value { result
        ≡ lowest_read (V.blocks window.now) (V.budget window.now) (V.held window.now) bank frame }
    ensures within { IfSome result (λ r. r < 32) }
{
    readable_in(window, bank, frame, marks.words[frame as usize])
}

// The reads of a frame that can be answered, as bits.
fn reads_of<V: Windows>(window: &V, frame: u8) -> u64
    requires frame { frame < 8 }
    ensures { (r : ℕ) → r < 32 → has_bit result r ≡ false → is_done (can (V.blocks window.now)
        (V.budget window.now) (event.Read frame r) (V.held window.now)) ≡ false }
{
    let word = window.unread(frame);
    let unread = word as u64;
    let mut marks: u64 = 0;
    let mut read = lowest_bit(unread, 0);
    while read < 32 {
        let is_known = window.can_read(frame, read);
        marks = with_bit(marks, read, is_known);
        read = lowest_bit(unread, read + 1);
    }
    marks
}

/// Marks of reads, of which each that can be answered has one.
pub fn marked_reads<V: Windows>(window: &V) -> ReadMarks
    ensures { ReadsMarked (V.blocks window.now) (V.budget window.now) (V.held window.now) result.words }
{
    let mut words: [u64; 8] = [0; 8];
    for frame in 0..8u8 {
        let word = reads_of(window, frame);
        words[frame as usize] = word;
    }
    ReadMarks { words }
}

/// The eldest read that a bank may answer: the frame, and the read. `order` names the frames in flight, the oldest
/// first, and each read that can be answered is marked.
pub fn readable_among<V: Windows>(
    window: &V,
    bank: u8,
    order: &[u8],
    marks: &ReadMarks,
) -> Option<(u8, u8)>
    requires order { order.now ≡ numbers_of (V.held window.now).frames }
    requires within { All (λ n. n < 8) order.now }
    requires distinct { AreNumbers order.now }
    requires marked { ReadsMarked (V.blocks window.now) (V.budget window.now) (V.held window.now) marks.now.words }
    ensures value { result
        ≡ eldest (answers (V.blocks window.now) (V.budget window.now) (V.held window.now) bank) reads
        (V.held window.now).frames }
    ensures within { IfSome result (λ q. (q.0 < 8) × (q.1 < 32)) }
{
    for i in 0..order.len() {
        let frame = order[i];
        match readable_of(window, bank, frame, marks) {
            Some(read) => return Some((frame, read)),
            None => {}
        }
    }
    None
}

// The marks of a frame.
fn word_of(marks: &ReadMarks, frame: u8) -> u64
    requires { frame < 8 }
    ensures { result ≡ slice_index_or marks.now.words frame 0 }
{
    marks.words[frame as usize]
}

/// Whether a read of one of some frames is marked.
pub fn any_marked(marks: &ReadMarks, order: &[u8]) -> bool
    requires { All (λ n. n < 8) order.now }
    ensures { result ≡ false → (j r : ℕ) → j < length order.now
        → frame_bit marks.now.words (slice_index_or order.now j 0) r ≡ false }
{
    let mut all: u64 = 0;
    for i in 0..order.len() {
        let frame = order[i];
        let word = word_of(marks, frame);
        all |= word;
    }
    if all == 0 { false } else { true }
}
