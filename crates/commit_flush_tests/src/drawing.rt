//! Lists of events that a generator draws.
ghost use Rattle.std.specs.Prelude.{◌<◌};

use frame_state::Event;
use rand_core::utils::NextWord;
use rand_pcg::Pcg32;
use std::alloc::{AllocError, Global};

// The place of a token: one of sixteen in a row, of slots from 0 or from 8 on, or of reads.
fn place_of(word: u32, number: u8) -> u16
    ensures { result < 320 }
{
    let place = number as u16 % 16;
    match (word >> 20) % 3 {
        0 => place,
        1 => 16 + place,
        _ => 256 + place,
    }
}

// The event of a number that a word draws; of sixteen words three fire slots, and five deliver tokens.
fn event_of(word: u32, number: u8) -> Event {
    let frame = ((word >> 4) % 8) as u8;
    match word % 16 {
        0 => Event::Fetch {
            block: number as u32 % 8,
        },
        1 => Event::Read {
            frame,
            read: number,
        },
        2..=4 => Event::Fire {
            frame,
            slot: number,
        },
        5..=9 => Event::Deliver {
            token: 320 * frame as u16 + place_of(word, number),
        },
        10 => Event::Load { frame, number },
        11 => Event::Store { frame, number },
        12 => Event::Exit { frame },
        13 => Event::Seal { frame },
        14 => Event::Commit,
        _ => flush_or_commit(word, frame),
    }
}

// A flush for one word of 16, else a commit.
fn flush_or_commit(word: u32, frame: u8) -> Event {
    if (word >> 24) % 16 == 0 {
        Event::Flush { frame }
    } else {
        Event::Commit
    }
}

// How many events a word draws: sixteen numbers in turn, or one.
fn count_of(word: u32) -> u8 {
    match word % 16 {
        1..=11 => 16,
        _ => 1,
    }
}

// Puts the events of a word behind others, from a number on that it draws too.
fn push_drawn(events: &mut Vec<Event>, word: u32) -> Result<(), AllocError> {
    let first = ((word >> 8) % 16) as u8;
    for number in 0..count_of(word) {
        let number = (first ^ number) % 16;
        events.push(event_of(word, number))?;
    }
    Ok(())
}

/// The events of so many words that a seed draws.
pub fn drawn(alloc: Global, seed: u64, words: usize) -> Result<Vec<Event>, AllocError> {
    let mut events = Vec::with_capacity(alloc, words)?;
    let mut generator = Pcg32::new(seed, 11);
    for _word in 0..words {
        push_drawn(&mut events, generator.next_word())?;
    }
    Ok(events)
}
