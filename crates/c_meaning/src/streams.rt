//! `getchar`, `putchar` and `exit`, which are done at once.

ghost use Rattle.std.specs.Prelude.{◌≡◌, ◌∷◌, [], List, ℕ, map, Some};
ghost use Rattle.c_meaning_spec.specs.Call.{exit_with, get_char as get_char_of, put_char as put_char_of};
ghost use Rattle.c_meaning_spec.specs.Call.{read_from};
ghost use Rattle.c_meaning.specs.inside.View.{view};
ghost use Rattle.c_meaning.specs.inside.Direct.{Values};

use crate::direct::Stop;
use crate::scalars::Scalars;
use crate::store::Store;
use c_meaning_spec::{Fault, Halt};
use c_tree::TypedProgram;

impl<'a> Store<'a> {
    /// `getchar` takes no argument.
    #[inline(never)]
    #[tactic(auto, using(crate::proofs::InPlace::get_none, crate::proofs::InPlace::get_other))]
    pub fn next_char(&mut self, program: &'a TypedProgram, done: &Scalars) -> Option<u64>
        ensures { (ws : List ℕ) → done.now ≡ map Some ws
            → Values program.now (get_char_of ws (view self.old)) self.new result }
    {
        if done.len() == 0 {
            self.next_byte(program)
        } else {
            self.ill_formed(program)
        }
    }

    // The next byte of the input, and -1 at its end.
    fn next_byte(&mut self, program: &'a TypedProgram) -> Option<u64>
        ensures { Values program.now (read_from (view self.old).input (view self.old)) self.new result }
    {
        match self.input.split_first() {
            None => Some(0xffff_ffff_ffff_ffff),
            Some((b, rest)) => {
                self.input = rest;
                Some(*b as u64)
            }
        }
    }

    // The low byte of a word is put out.
    #[inline(always)]
    fn put_byte(&mut self, program: &'a TypedProgram, w: u64) -> Option<u64>
        ensures { Values program.now (put_char_of (w ∷ []) (view self.old)) self.new result }
    {
        match self.output.push((w % 256) as u8) {
            Ok(()) => Some(w % 256),
            Err(_) => {
                self.stop = Stop::Memory;
                None
            }
        }
    }

    /// `putchar` puts out the low byte of its argument.
    #[inline(never)]
    #[tactic(auto, using(crate::proofs::InPlace::put_alone, crate::proofs::InPlace::put_other))]
    pub fn put_char(&mut self, program: &'a TypedProgram, done: &Scalars) -> Option<u64>
        ensures { (ws : List ℕ) → done.now ≡ map Some ws
            → Values program.now (put_char_of ws (view self.old)) self.new result }
    {
        match done.only() {
            Some(w) => self.put_byte(program, w),
            None => self.ill_formed(program),
        }
    }

    /// `exit` ends the evaluation with its argument.
    #[inline(never)]
    #[tactic(auto, using(crate::proofs::InPlace::exit_alone, crate::proofs::InPlace::exit_other))]
    pub fn exit(&mut self, program: &'a TypedProgram, done: &Scalars) -> Option<u64>
        ensures { (ws : List ℕ) → done.now ≡ map Some ws
            → Values program.now (exit_with ws (view self.old)) self.new result }
    {
        let why = match done.only() {
            Some(w) => Halt::Exits(w),
            None => Halt::Faults(Fault::IllFormed),
        };
        self.stop = Stop::Fails(why);
        None
    }
}
