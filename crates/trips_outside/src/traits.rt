ghost use Rattle.std.specs.Prelude.{◌≡◌, ◌≤◌, ◌<◌, ℕ, List, [], length, take, Option, Ok, IfOk, OnOk};
ghost use Rattle.std.specs.Prelude.{MatchResult};
ghost use Rattle.trips_outside.specs.Outside.{HasCause, Gives, Appended};

/// The outside failed. Its count of faults rose.
#[derive(Clone, Copy, Debug, PartialEq, Eq)]
pub struct Failed;

/// Named files. One of them is opened at a time, and read from its start to its end.
pub trait Files {
    /// What a name holds, where that is told.
    ghost held: { Self → List ℕ → Option (List ℕ) };

    /// What is still ahead in the file that is open, where that is told.
    ghost ahead: { Self → Option (List ℕ) };

    /// How often a call has failed. It stands still at the greatest 64-bit number.
    ghost faults: { Self → ℕ };

    /// Opens the file of this name in place of the one that is open. All that it holds is ahead. Which file is
    /// open after a failure is not said.
    fn open(&mut self, name: &str) -> Result<(), Failed>
        ensures opened { OnOk result (ahead self.new ≡ held self.old name.now) }
        ensures kept { held self.new ≡ held self.old }
        ensures cause { HasCause (faults self.old) (faults self.new) result };

    /// Reads on in the file that is open, and says how many bytes were read. None at a nonempty `into`
    /// mean that its end is reached. What stands in `into` behind the bytes that were read, or after a
    /// failure, is not said.
    fn read(&mut self, into: &mut [u8]) -> Result<usize, Failed>
        ensures bound { IfOk result (λ k. k ≤ length into.new) }
        ensures bytes { IfOk result (Gives (ahead self.old) (ahead self.new) into.new) }
        ensures kept { held self.new ≡ held self.old }
        ensures cause { HasCause (faults self.old) (faults self.new) result };
}

/// A place to write to.
pub trait Sink {
    /// The bytes written so far, where they are told.
    ghost written: { Self → Option (List ℕ) };

    /// How often a call has failed. It stands still at the greatest 64-bit number.
    ghost faults: { Self → ℕ };

    /// Takes some of a nonempty piece from its front, and says how many bytes, or takes none of it
    /// and fails.
    fn write(&mut self, bytes: &[u8]) -> Result<usize, Failed>
        ensures bound { IfOk result (λ k. k ≤ length bytes.now) }
        ensures some { 0 < length bytes.now → IfOk result (λ k. 0 < k) }
        ensures empty { length bytes.now ≡ 0 → result ≡ Ok 0 }
        ensures appended { MatchResult result
            (λ k. Appended (written self.old) (written self.new) (take k bytes.now))
            (λ _. Appended (written self.old) (written self.new) []) }
        ensures cause { HasCause (faults self.old) (faults self.new) result };
}
