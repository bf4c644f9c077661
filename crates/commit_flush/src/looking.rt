//! What a frame in flight sees of the older ones: words of registers, and bytes of memory.
ghost use Rattle.std.specs.Prelude.{◌≡◌, ◌<◌, ◌≤◌, ℕ, Some, slice_get};
ghost use Rattle.commit_flush_spec.specs.Frames.{Frame};
ghost use Rattle.commit_flush_spec.specs.Older.{committed};
ghost use Rattle.commit_flush_spec.specs.inside.Numbered.{seen_at};
ghost use Rattle.commit_flush_spec.specs.Dataflow.{read_seen};
ghost use Rattle.commit_flush.specs.inside.Places.{age_of, frame_of};
ghost use Rattle.commit_flush.specs.inside.Banked.{word_read};

use crate::window::Window;
use frame_state::read_register;
use reg_bank::ReadAnswer;

// The word that a read is answered, where it is known.
fn word_read(answer: ReadAnswer) -> Option<u64>
    ensures { result ≡ word_read answer }
{
    match answer {
        ReadAnswer::Word(word) => Some(word),
        ReadAnswer::NotYet(_) => None,
    }
}

impl Window {
    // The word of a register that a frame in flight sees, where it is known.
    #[inline(always)]
    pub(crate) fn look(&self, frame: u8, register: u8) -> Option<u64>
        requires { register < 128 }
        ensures { (a : ℕ) → age_of frame self.now.window.frames ≡ Some a → result
            ≡ (seen_at (committed self.now.window.state) self.now.window.frames frame).look register }
    {
        let age = self.age_of(frame)?;
        let word = self.arch.register(register);
        word_read(self.banks.read(age, register, word))
    }

    // What is known of the register of a read of a frame in flight.
    #[inline(always)]
    pub(crate) fn word_of(&self, frame: u8, read: u8) -> Option<u64>
        ensures { (f : Frame) → frame_of frame self.now.window.frames ≡ Some f → result
            ≡ read_seen (seen_at (committed self.now.window.state) self.now.window.frames frame)
            (slice_get f.code.reads.items read) }
    {
        let phase = self.phase(frame)?;
        let register = read_register(phase, self.image(), read)?;
        if register < 128 {
            self.look(frame, register)
        } else {
            None
        }
    }
}
