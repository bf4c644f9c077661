ghost use Rattle.std.specs.Prelude.{◌≡◌, ◌≤◌, ◌<◌, [], length, take, drop, map, min, is_err, IfOk};
ghost use Rattle.std.specs.Prelude.{Ok, None, Some, false};
ghost use Rattle.std.specs.Result.{result_ok};
ghost use Rattle.std.specs.String.{string_bytes};
ghost use Rattle.trips_outside.specs.Outside.{Gives, HasCause};
ghost use Rattle.trips_outside.specs.inside.MemoryFiles.{held_among, or_empty, held_by, left_in, is_closed};
ghost use Rattle.trips_outside.specs.inside.MemoryFiles.{after_open, count_of, count_given, after_read};

use crate::{Failed, Files};
use std::marker::Model;

// The number of the first entry of the name, and that of the entries where there is none.
fn find(files: &[(String, Vec<u8>)], name: &str) -> usize
    ensures { left_in (map (λ file. (string_bytes file.0, file.1.items)) files.now) result 0
        ≡ held_among (map (λ file. (string_bytes file.0, file.1.items)) files.now) name.now }
{
    let mut number = 0;
    for file in files {
        if file.0.as_str() == name {
            return number;
        }
        number += 1;
    }
    number
}

// The bytes from a place on.
fn rest(bytes: &[u8], place: usize) -> &[u8]
    ensures { result.now ≡ drop place bytes.now }
{
    if place >= bytes.len() {
        return &[];
    }
    &bytes[place..]
}

// Gives the first of the bytes, at most a piece of them.
fn give(left: &[u8], piece: usize, into: &mut [u8]) -> usize
    requires { 0 < piece }
    ensures count { result ≡ count_of left.now (length into.new) piece }
    ensures bytes { Gives (Some left.now) (Some (drop result left.now)) into.new result }
{
    let count = left.len().min(into.len()).min(piece);
    into[..count].copy_from_slice(&left[..count]);
    count
}

/// Files in memory that give at most a piece a call. A call fails exactly where it is listed, the
/// calls being numbered from 1, where the name is not held, or where no file is open. Of two entries of one name
/// the first is the one that counts.
#[derive(Drop)]
pub struct MemFiles {
    files: Vec<(String, Vec<u8>)>,
    opened: usize,
    place: usize,
    piece: usize,
    failing: Vec<u64>,
    calls: u64,
    faults: u64,
}

impl Model for MemFiles {
    ghost use Rattle.std.specs.Prelude.{◌<◌, map};
    ghost use Rattle.std.specs.String.{string_bytes};
    ghost use Rattle.trips_outside.specs.inside.MemoryFiles.{ListedFiles, left_in};

    ghost Value = { ListedFiles };

    ghost view = { λ f. record {
      entries = map (λ file. (string_bytes file.0, file.1.items)) f.files.items;
      ahead = left_in (map (λ file. (string_bytes file.0, file.1.items)) f.files.items) f.opened f.place;
      piece = f.piece;
      failing = f.failing.items;
      calls = f.calls;
      faults = f.faults;
    } };

    ghost invariant = { λ f. 0 < f.piece };
}

impl MemFiles {
    /// Files that give at most `piece` bytes a call, and fail at the calls in `failing`. None is open.
    pub fn make(files: Vec<(String, Vec<u8>)>, piece: usize, failing: Vec<u64>) -> MemFiles
        requires { 0 < piece }
        ensures { result ≡ record {
          entries = map (λ file. (string_bytes file.0, file.1.items)) files.items;
          ahead = None;
          piece = piece;
          failing = failing.items;
          calls = 0;
          faults = 0;
        } }
    {
        let opened = files.len();
        MemFiles {
            files,
            opened,
            place: 0,
            piece,
            failing,
            calls: 0,
            faults: 0,
        }
    }
}

impl Files for MemFiles {
    ghost held = { λ s. held_among s.entries };

    ghost ahead = { λ s. s.ahead };

    ghost faults = { λ s. s.faults };

    fn open(&mut self, name: &str) -> Result<(), Failed>
        ensures fails { is_err result ≡ is_closed self.old name.now }
        ensures after { self.new ≡ after_open self.old name.now (is_err result) }
        ensures kept { held_among self.new.entries ≡ held_among self.old.entries }
        ensures cause { HasCause self.old.faults self.new.faults result }
    {
        self.calls = self.calls.saturating_add(1);
        let number = find(&self.files, name);
        if self.failing.contains(&self.calls) || number >= self.files.len() {
            self.faults = self.faults.saturating_add(1);
            return Err(Failed);
        }
        self.opened = number;
        self.place = 0;
        Ok(())
    }

    fn read(&mut self, into: &mut [u8]) -> Result<usize, Failed>
        ensures count { result_ok result ≡ count_given self.old (length into.new) }
        ensures after { self.new ≡ after_read self.old (result_ok result) }
        ensures bound { IfOk result (λ k. k ≤ length into.new) }
        ensures bytes { IfOk result (Gives self.old.ahead self.new.ahead into.new) }
        ensures kept { held_among self.new.entries ≡ held_among self.old.entries }
        ensures cause { HasCause self.old.faults self.new.faults result }
    {
        self.calls = self.calls.saturating_add(1);
        if !self.failing.contains(&self.calls) {
            if let Some(file) = self.files.get(self.opened) {
                let count = give(rest(&file.1, self.place), self.piece, into);
                self.place += count;
                return Ok(count);
            }
        }
        self.faults = self.faults.saturating_add(1);
        Err(Failed)
    }
}

/// Files in memory that never fail. A name that they do not hold is empty, and so is what is read
/// where no file is open.
#[derive(Drop)]
pub struct HonestFiles {
    files: Vec<(String, Vec<u8>)>,
    opened: usize,
    place: usize,
}

impl Model for HonestFiles {
    ghost use Rattle.std.specs.Prelude.{map};
    ghost use Rattle.std.specs.String.{string_bytes};
    ghost use Rattle.trips_outside.specs.inside.MemoryFiles.{HonestEntries, left_in, or_empty};

    ghost Value = { HonestEntries };

    ghost view = { λ f. record {
      entries = map (λ file. (string_bytes file.0, file.1.items)) f.files.items;
      ahead = or_empty
          (left_in (map (λ file. (string_bytes file.0, file.1.items)) f.files.items) f.opened f.place);
    } };
}

impl HonestFiles {
    /// Files that never fail. None is open.
    pub fn make(files: Vec<(String, Vec<u8>)>) -> HonestFiles
        ensures { result ≡ record {
          entries = map (λ file. (string_bytes file.0, file.1.items)) files.items;
          ahead = [];
        } }
    {
        let opened = files.len();
        HonestFiles {
            files,
            opened,
            place: 0,
        }
    }
}

impl Files for HonestFiles {
    ghost held = { λ s. held_by s.entries };

    ghost ahead = { λ s. Some s.ahead };

    ghost faults = { λ s. 0 };

    fn open(&mut self, name: &str) -> Result<(), Failed>
        ensures fails { is_err result ≡ false }
        ensures after { self.new ≡ record self.old {
          ahead = or_empty (held_among self.old.entries name.now);
        } }
        ensures kept { held_by self.new.entries ≡ held_by self.old.entries }
        ensures cause { HasCause 0 0 result }
    {
        self.opened = find(&self.files, name);
        self.place = 0;
        Ok(())
    }

    fn read(&mut self, into: &mut [u8]) -> Result<usize, Failed>
        ensures count { result ≡ Ok (min (length self.old.ahead) (length into.new)) }
        ensures after { IfOk result (λ k.
            self.new ≡ record self.old { ahead = drop k self.old.ahead }) }
        ensures bound { IfOk result (λ k. k ≤ length into.new) }
        ensures bytes { IfOk result (Gives (Some self.old.ahead) (Some self.new.ahead) into.new) }
        ensures kept { held_by self.new.entries ≡ held_by self.old.entries }
        ensures cause { HasCause 0 0 result }
    {
        match self.files.get(self.opened) {
            Some(file) => {
                let count = give(rest(&file.1, self.place), usize::MAX, into);
                self.place += count;
                Ok(count)
            }
            None => Ok(0),
        }
    }
}
