ghost use Rattle.std.specs.Prelude.{◌≡◌, ◌≤◌, ◌<◌, ◌==◌, min, if◌then◌else◌, length, take, IfOk};
ghost use Rattle.std.specs.Prelude.{MatchResult, Ok, Some, None, []};
ghost use Rattle.std.specs.List.{list_any};
ghost use Rattle.std.specs.Result.{result_ok};
ghost use Rattle.trips_outside.specs.Outside.{Appended, HasCause};
ghost use Rattle.trips_outside.specs.inside.MemorySinks.{count_taken, after_write, told_by, after_keeping};

use crate::{Failed, Sink};
use base::Memory;
use std::alloc::Global;
use std::marker::Model;

/// A sink in memory that takes at most a piece a call into room that it reserved when it was made.
/// A call with a nonempty piece fails exactly where it is listed, the calls being numbered from 1,
/// or where no room is left.
#[derive(Drop)]
pub struct MemSink {
    written: Vec<u8>,
    room: usize,
    piece: usize,
    failing: Vec<u64>,
    calls: u64,
    faults: u64,
}

impl Model for MemSink {
    ghost use Rattle.std.specs.Prelude.{◌<◌, ◌≤◌, length};
    ghost use Rattle.std.specs.Vec.{vec_capacity};
    ghost use Rattle.trips_outside.specs.inside.MemorySinks.{ListedSink};

    ghost Value = { ListedSink };

    ghost view = { λ s. record {
      written = s.written.items;
      room = s.room;
      piece = s.piece;
      failing = s.failing.items;
      calls = s.calls;
      faults = s.faults;
    } };

    ghost invariant = { λ s. (length s.written.items ≤ s.room)
        × (s.room ≤ vec_capacity s.written) × (0 < s.piece) };
}

// How many of so many bytes the next call takes, and none where it is to fail.
fn next_count(failing: &[u64], number: u64, room: usize, piece: usize, size: usize) -> usize
    ensures { result ≡ (if list_any (λ listed. listed == number) failing.now then 0
        else min (min room size) piece) }
{
    if failing.contains(&number) {
        return 0;
    }
    room.min(size).min(piece)
}

impl MemSink {
    /// A sink with room for `room` bytes, which takes at most `piece` bytes a call and fails at the
    /// calls in `failing`. Want of memory is the only error.
    pub fn make(
        alloc: Global,
        piece: usize,
        room: usize,
        failing: Vec<u64>,
    ) -> Result<MemSink, Memory>
        requires { 0 < piece }
        ensures { IfOk result (λ sink. sink ≡ record {
          written = [];
          room = room;
          piece = piece;
          failing = failing.items;
          calls = 0;
          faults = 0;
        }) }
    {
        Ok(MemSink {
            written: Vec::with_capacity(alloc, room)?,
            room,
            piece,
            failing,
            calls: 0,
            faults: 0,
        })
    }

    /// The bytes that were written.
    pub fn written(&self) -> &[u8]
        ensures { result.now ≡ self.now.written }
    {
        &self.written
    }
}

impl Sink for MemSink {
    ghost written = { λ s. Some s.written };

    ghost faults = { λ s. s.faults };

    fn write(&mut self, bytes: &[u8]) -> Result<usize, Failed>
        ensures count { result_ok result ≡ count_taken self.old (length bytes.now) }
        ensures after { self.new ≡ after_write self.old bytes.now (result_ok result) }
        ensures bound { IfOk result (λ k. k ≤ length bytes.now) }
        ensures some { 0 < length bytes.now → IfOk result (λ k. 0 < k) }
        ensures empty { length bytes.now ≡ 0 → result ≡ Ok 0 }
        ensures appended { MatchResult result
            (λ k. Appended (Some self.old.written) (Some self.new.written) (take k bytes.now))
            (λ _. Appended (Some self.old.written) (Some self.new.written) []) }
        ensures cause { HasCause self.old.faults self.new.faults result }
    {
        self.calls = self.calls.saturating_add(1);
        if bytes.is_empty() {
            return Ok(0);
        }
        let room = self.room - self.written.len();
        let count = next_count(&self.failing, self.calls, room, self.piece, bytes.len());
        if count == 0 {
            self.faults = self.faults.saturating_add(1);
            return Err(Failed);
        }
        self.written.extend_from_slice(&bytes[..count]).unwrap();
        Ok(count)
    }
}

/// A sink in memory that never fails. It keeps the first bytes, up to the room that it reserved
/// when it was made, and counts the others.
#[derive(Drop)]
pub struct HonestSink {
    kept: Vec<u8>,
    room: usize,
    lost: u64,
}

impl Model for HonestSink {
    ghost use Rattle.std.specs.Prelude.{◌≤◌, length};
    ghost use Rattle.std.specs.Vec.{vec_capacity};
    ghost use Rattle.trips_outside.specs.inside.MemorySinks.{KeepingSink};

    ghost Value = { KeepingSink };

    ghost view = { λ s. record { kept = s.kept.items; room = s.room; lost = s.lost } };

    ghost invariant = { λ s. (length s.kept.items ≤ s.room) × (s.room ≤ vec_capacity s.kept) };
}

impl HonestSink {
    /// A sink with room for `room` bytes. Want of memory is the only error.
    pub fn make(alloc: Global, room: usize) -> Result<HonestSink, Memory>
        ensures { IfOk result (λ sink. sink ≡ record { kept = []; room = room; lost = 0 }) }
    {
        Ok(HonestSink {
            kept: Vec::with_capacity(alloc, room)?,
            room,
            lost: 0,
        })
    }

    /// The bytes that were kept.
    pub fn written(&self) -> &[u8]
        ensures { result.now ≡ self.now.kept }
    {
        &self.kept
    }
}

impl Sink for HonestSink {
    ghost written = { told_by };

    ghost faults = { λ s. 0 };

    fn write(&mut self, bytes: &[u8]) -> Result<usize, Failed>
        ensures count { result ≡ Ok (length bytes.now) }
        ensures after { self.new ≡ after_keeping self.old bytes.now }
        ensures bound { IfOk result (λ k. k ≤ length bytes.now) }
        ensures some { 0 < length bytes.now → IfOk result (λ k. 0 < k) }
        ensures empty { length bytes.now ≡ 0 → result ≡ Ok 0 }
        ensures appended { MatchResult result
            (λ k. Appended (told_by self.old) (told_by self.new) (take k bytes.now))
            (λ _. Appended (told_by self.old) (told_by self.new) []) }
        ensures cause { HasCause 0 0 result }
    {
        let count = (self.room - self.kept.len()).min(bytes.len());
        self.kept.extend_from_slice(&bytes[..count]).unwrap();
        self.lost = self.lost.saturating_add((bytes.len() - count) as u64);
        Ok(bytes.len())
    }
}
