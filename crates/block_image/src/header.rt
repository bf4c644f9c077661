//! The words of headers: read.
ghost use Rattle.std.specs.Prelude.{◌≡◌, ℕ, ◌+◌, ◌*◌, ◌<◌, ◌≤◌, ◌^◌, length, drop, take, map};
ghost use Rattle.std.specs.Prelude.{IfSome, []};
ghost use Rattle.block_image.specs.HeaderReading.{info_from, reads_in, writes_in, chunks_in};
ghost use Rattle.block_image.specs.HeaderReading.{is_good_info, is_bad};
ghost use Rattle.block_image.specs.inside.HeaderReading.{mask_in, first_bad};
ghost use Rattle.block_image.specs.inside.HeaderReading.{operand_at, read_at, write_at};
ghost use Rattle.block_image.specs.inside.Reading.{words};

use arrayvec::ArrayVec;
use byteorder::{BigEndian, ByteOrder};
use trips_isa::{ReadSlot, Spot};

/// The words of a chunk.
pub(crate) fn words_of(bytes: &[u8]) -> [u32; 32]
    requires { length bytes.now ≡ 128 }
    ensures value { result ≡ words 32 bytes.now }
{
    let mut words = [0; 32];
    BigEndian::read_u32_into(bytes, &mut words);
    words
}

/// The info bits of a header.
pub(crate) fn info(words: &[u32]) -> u64
    requires { length words.now ≡ 32 }
    ensures value { result ≡ info_from 0 words.now }
{
    let mut info: u64 = 0;
    for w in words {
        info = info * 4 + (*w / 1073741824) as u64;
    }
    info
}

fn is_good(info: u64) -> bool
    ensures value { result ≡ is_good_info info }
{
    info / 67108864 % 64 <= 32
        && info / 1048576 % 64 <= 32
        && 0 < info / 131072 % 8
        && info / 131072 % 8 <= 4
        && info % 131072 == 0
}

#[tactic(auto, unfolding(crate::specs::HeaderReading::is_bad))]
fn is_bad_word(info: u64, i: usize, word: u32) -> bool
    requires { i < 32 }
    ensures value { result ≡ is_bad info i word }
{
    (info / 67108864 % 64 <= i as u64 && !(word / 128 % 8388608 == 0))
        || (info / 1048576 % 64 <= i as u64 && !(word % 128 == 0))
        || (i == 16 && !is_good(info))
}

/// The first word that is bad.
pub(crate) fn bad_word(info: u64, words: &[u32]) -> Option<usize>
    requires { length words.now ≡ 32 }
    ensures value { result ≡ first_bad info 0 words.now }
    ensures bound { IfSome result (λ i. i < 32) }
{
    for i in 0..words.len() {
        if is_bad_word(info, i, words[i]) {
            return Some(i);
        }
    }
    None
}

#[tactic(auto, unfolding(crate::specs::inside::HeaderReading::operand_at))]
fn operand(number: u32) -> Spot
    requires { number < 256 }
    ensures value { result ≡ operand_at number }
{
    if number < 128 {
        Spot::Left(number as u8)
    } else {
        Spot::Right((number - 128) as u8)
    }
}

#[tactic(auto, unfolding(crate::specs::inside::HeaderReading::read_at))]
fn read_in(word: u32) -> ReadSlot
    ensures value { result ≡ read_at word }
{
    let first = word / 128 % 256;
    let second = word / 32768 % 256;
    ReadSlot {
        register: (word / 8388608 % 128) as u8,
        first: operand(first),
        second: if second == first {
            None
        } else {
            Some(operand(second))
        },
    }
}

/// Adds the reads of the first words.
pub(crate) fn add_reads(reads: &mut ArrayVec<ReadSlot, 32>, words: &[u32], count: usize)
    requires words { length words.now ≡ 32 }
    requires count { count ≤ 32 }
    requires empty { reads.old.items ≡ [] }
    ensures value { reads.new.items ≡ map read_at (take count words.now) }
{
    for i in 0..count {
        reads.push(read_in(words[i]));
    }
}

/// Adds the writes of the first words.
pub(crate) fn add_writes(writes: &mut ArrayVec<u8, 32>, words: &[u32], count: usize)
    requires words { length words.now ≡ 32 }
    requires count { count ≤ 32 }
    requires empty { writes.old.items ≡ [] }
    ensures value { writes.new.items ≡ map write_at (take count words.now) }
{
    for i in 0..count {
        writes.push((words[i] % 128) as u8);
    }
}
