//! What follows a part of a statement that was not evaluated to its end, in functions of their own.

ghost use Rattle.c_meaning_spec.specs.State.{Result as Meant};
ghost use Rattle.c_meaning_spec.specs.inside.State.{then};
ghost use Rattle.c_meaning_spec.specs.Task.{Turn};
ghost use Rattle.c_meaning_spec.specs.Statement as meant;
ghost use Rattle.c_meaning_spec.specs.Telling.{telling};
ghost use Rattle.c_meaning.specs.inside.View.{behind};
ghost use Rattle.c_meaning.specs.inside.Direct.{Stopped, StoppedAt, Runs, Turned};

use crate::direct::Ran;
use crate::frame::{Frame, Loop, Stage};
use crate::store::Store;
use c_tree::{TypedProgram, TypedStmt};

impl<'a> Store<'a> {
    /// A branch follows the test.
    #[inline(never)]
    pub fn kept_if(
        &mut self,
        program: &'a TypedProgram,
        token: u32,
        first: &'a TypedStmt,
        other: Option<&'a TypedStmt>,
    ) -> Ran
        ensures { (r : Meant) → StoppedAt program.now token r self.old
            → Runs program.now (then r
            (meant.after_if (telling program.now) first.now (behind other.entry))) self.new result }
    {
        self.kept_at(program, token, Frame::If { first, other })
    }

    /// A return follows its value.
    #[inline(never)]
    pub fn kept_return(&mut self, program: &'a TypedProgram, token: u32) -> Ran
        ensures { (r : Meant) → StoppedAt program.now token r self.old
            → Runs program.now (then r (meant.returning)) self.new result }
    {
        self.kept_at(program, token, Frame::Returning)
    }

    /// A local is set after its initialiser.
    #[inline(never)]
    pub fn kept_initial(&mut self, program: &'a TypedProgram, token: u32, i: u32) -> Ran
        ensures { (r : Meant) → StoppedAt program.now token r self.old
            → Runs program.now (then r (meant.initialised i)) self.new result }
    {
        self.kept_at(program, token, Frame::Initialised(i))
    }

    /// Statements follow one before them: none, where it was the last.
    #[tactic(auto, using(crate::proofs::Unwinds::none_behind))]
    #[inline(never)]
    pub fn kept_rest(&mut self, program: &'a TypedProgram, rest: &'a [TypedStmt]) -> Ran
        ensures { (r : Meant) → Stopped program.now r self.old
            → Runs program.now (then r
            (λ v s. meant.going_on v s (meant.sequence (telling program.now) rest.now))) self.new result }
    {
        if rest.len() == 0 {
            Ran::Stops
        } else {
            self.kept(program, Frame::Sequence(rest))
        }
    }

    /// The first turn of a loop follows its first part.
    #[inline(never)]
    pub fn kept_first(&mut self, program: &'a TypedProgram, token: u32, turn: Loop<'a>) -> Ran
        ensures { (r : Meant) → StoppedAt program.now token r self.old
            → Runs program.now (then r
            (λ v s. telling program.now (Turn (behind turn.entry.test) (behind turn.entry.post)
            turn.entry.body.now) s)) self.new result }
    {
        let frame = Frame::Turning {
            stage: Stage::Turns,
            rest: &[],
            turn,
        };
        self.kept_at(program, token, frame)
    }

    /// The further declarations of a `for` follow one, and then its turns.
    #[inline(never)]
    pub fn kept_locals(
        &mut self,
        program: &'a TypedProgram,
        rest: &'a [TypedStmt],
        turn: Loop<'a>,
    ) -> Ran
        ensures { (r : Meant) → Stopped program.now r self.old
            → Runs program.now (then r
            (λ v s. meant.going_on v s (meant.locals (telling program.now) rest.now
            (behind turn.entry.test) (behind turn.entry.post) turn.entry.body.now)))
            self.new result }
    {
        let frame = Frame::Turning {
            stage: Stage::Begins,
            rest,
            turn,
        };
        self.kept(program, frame)
    }

    /// A loop's body follows its test.
    #[inline(never)]
    pub fn kept_test(&mut self, program: &'a TypedProgram, token: u32, turn: Loop<'a>) -> Ran
        ensures { (r : Meant) → StoppedAt program.now token r self.old
            → Turned program.now turn.entry (then r
            (meant.after_test (telling program.now) (behind turn.entry.test) (behind turn.entry.post)
            turn.entry.body.now)) self.new result }
    {
        let frame = Frame::Turning {
            stage: Stage::Tests,
            rest: &[],
            turn,
        };
        self.kept_turn_at(program, token, frame)
    }

    /// What follows the body of a loop.
    #[inline(never)]
    pub fn kept_body(&mut self, program: &'a TypedProgram, turn: Loop<'a>) -> Ran
        ensures { (r : Meant) → Stopped program.now r self.old
            → Turned program.now turn.entry (then r
            (meant.after_body (telling program.now) (behind turn.entry.test) (behind turn.entry.post)
            turn.entry.body.now)) self.new result }
    {
        let frame = Frame::Turning {
            stage: Stage::Ran,
            rest: &[],
            turn,
        };
        self.kept_turn(program, frame)
    }

    /// The next turn of a loop follows its last part.
    #[inline(never)]
    pub fn kept_post(&mut self, program: &'a TypedProgram, token: u32, turn: Loop<'a>) -> Ran
        ensures { (r : Meant) → StoppedAt program.now token r self.old
            → Turned program.now turn.entry (then r
            (λ v s. telling program.now (Turn (behind turn.entry.test) (behind turn.entry.post)
            turn.entry.body.now) s)) self.new result }
    {
        let frame = Frame::Turning {
            stage: Stage::Turns,
            rest: &[],
            turn,
        };
        self.kept_turn_at(program, token, frame)
    }
}
