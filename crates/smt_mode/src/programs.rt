//! Which programs take part in a cycle.
ghost use Rattle.std.specs.Prelude.{◌≡◌, ◌<◌, ◌≤◌, ◌++◌, All, cond, length, is_none, [], ◌∷◌, true};
ghost use Rattle.smt_spec.specs.Cycles as four;
ghost use Rattle.smt_mode.specs.Machines.{four_of};

use crate::machine::Machine;
use crate::turns::{goes_on, has_gone};
use arrayvec::ArrayVec;

// One number more, where it is to be taken.
fn take_if(programs: &mut ArrayVec<u8, 4>, program: u8, is_taken: bool)
    requires { length programs.old.items < 4 }
    ensures { programs.new.items ≡ programs.old.items ++ cond is_taken (program ∷ []) [] }
{
    if is_taken {
        programs.push(program);
    }
}

impl<W> Machine<W> {
    // Whether a program is not over.
    fn goes(&self, program: u8) -> bool
        requires four { length self.now.programs.items ≡ 4 }
        requires program { program < 4 }
        ensures { result ≡ four.goes_on self.now.budget ((four_of self.now).own program).window }
    {
        goes_on(&self.programs[program as usize], self.budget)
    }

    // Whether the run of a program has not ended.
    fn acts(&self, program: u8) -> bool
        requires four { length self.now.programs.items ≡ 4 }
        requires program { program < 4 }
        ensures { result ≡ four.has_gone ((four_of self.now).own program).window.over }
    {
        has_gone(&self.programs[program as usize])
    }

    /// Whether the fetch unit works for no program of this number.
    pub fn is_idle_for(&self, program: u8) -> bool
        requires four { length self.now.programs.items ≡ 4 }
        requires program { program < 4 }
        ensures { result ≡ is_none ((four_of self.now).own program).fetching }
    {
        self.programs[program as usize].state.is_idle()
    }

    /// The programs that are not over, the lowest first.
    pub fn going(&self) -> ArrayVec<u8, 4>
        requires { length self.now.programs.items ≡ 4 }
        ensures value { result.items ≡ four.going self.now.budget (four_of self.now) }
        ensures within { All (λ p. p < 4) result.items }
    {
        let mut programs = ArrayVec::new();
        for program in 0..4u8 {
            take_if(&mut programs, program, self.goes(program));
        }
        programs
    }

    /// Of some programs those whose runs have not ended.
    pub fn acting(&self, going: &[u8]) -> ArrayVec<u8, 4>
        requires four { length self.now.programs.items ≡ 4 }
        requires within { All (λ p. p < 4) going.now }
        requires few { length going.now ≤ 4 }
        ensures value { result.items ≡ four.acting going.now (four_of self.now) }
        ensures within { All (λ p. p < 4) result.items }
    {
        let mut programs = ArrayVec::new();
        for i in 0..going.len() {
            take_if(&mut programs, going[i], self.acts(going[i]));
        }
        programs
    }
}
