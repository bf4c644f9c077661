//! Calls: a function of the program is entered and its body left.

ghost use Rattle.std.specs.Prelude.{◌≡◌, ◌+◌, ◌≤◌, [], true, List, ℕ, map, Some, OnOk, length, take};
ghost use Rattle.c_tree.specs.Limits.{most_frame_bytes};
ghost use Rattle.c_meaning_spec.specs.State.{Result as Meant};
ghost use Rattle.c_meaning_spec.specs.inside.State.{then};
ghost use Rattle.c_meaning_spec.specs.Call.{frame as frame_of, called, enter, entered, entered_if};
ghost use Rattle.c_meaning_spec.specs.Call.{arguments, left, returned};
ghost use Rattle.c_meaning_spec.specs.Telling.{calling, telling};
ghost use Rattle.c_meaning.specs.inside.View.{behind, view};
ghost use Rattle.c_meaning.specs.inside.Direct.{Runs, Stopped, Values, parts_at, signal_of, through_if};
ghost use Rattle.c_meaning.specs.inside.Given.{words};

use crate::arguments::push_argument;
use crate::call::{add_arrays, add_rows, pad, room_with};
use crate::direct::{Ran, Stop};
use crate::frame::{Caller, Frame};
use crate::host::CALL;
use crate::scalars::Scalars;
use crate::store::Store;
use base::Boxed;
use c_meaning_spec::{Halt, Signal};
use c_tree::{Callee, MOST_FRAME_BYTES, TypedExpr, TypedFunc, TypedProgram};
use std::alloc::AllocError;

impl<'a> Store<'a> {
    /// A call, from its first argument on.
    #[cycle(parts)]
    #[inline(never)]
    pub fn first_argument(
        &mut self,
        program: &'a TypedProgram,
        token: u32,
        callee: Callee,
        args: &'a [Boxed<TypedExpr>],
        depth: u32,
    ) -> Option<u64>
        ensures { Values program.now
            (arguments (calling token (telling program.now)) program.now callee args.now [] (view self.old))
            self.new result }
    {
        let depth = depth.saturating_sub(CALL);
        let mut list = Scalars::none(self.alloc);
        self.call_value(program, token, callee, args, &mut list, depth)
    }

    // Keeps the list of a call whose scalars had no place.
    #[inline(never)]
    fn keep_list(
        &mut self,
        program: &'a TypedProgram,
        list: &mut Scalars,
        word: Option<u64>,
    ) -> Option<u64>
        ensures { (r : Meant) → Values program.now r self.old word → Values program.now r self.new result }
    {
        let scalars = std::mem::replace(list, Scalars::none(self.alloc));
        match self.spare_lists.push(scalars.into_list()) {
            Ok(()) => word,
            Err(_) => {
                self.stop = Stop::Memory;
                None
            }
        }
    }

    // Keeps the list that a call took, if any, for later calls.
    #[inline(always)]
    fn keep(
        &mut self,
        program: &'a TypedProgram,
        list: &mut Scalars,
        word: Option<u64>,
    ) -> Option<u64>
        ensures { (r : Meant) → Values program.now r self.old word → Values program.now r self.new result }
    {
        if list.has_list() {
            self.keep_list(program, list, word)
        } else {
            word
        }
    }

    /// The arguments from the left, and then the call. The list has the arguments before them.
    #[cycle(parts)]
    #[inline(always)]
    pub fn call_value(
        &mut self,
        program: &'a TypedProgram,
        token: u32,
        callee: Callee,
        rest: &'a [Boxed<TypedExpr>],
        list: &mut Scalars,
        depth: u32,
    ) -> Option<u64>
        requires given { map Some (words list.old) ≡ list.old }
        ensures { Values program.now
            (arguments (calling token (telling program.now)) program.now callee rest.now (words list.old)
            (view self.old))
            self.new result }
    {
        let mut rest = rest;
        while let Some((e, more)) = rest.split_first() {
            let e = e.get();
            match self.value_of(program, e, depth) {
                Some(w) => match push_argument(list, &mut self.spare_lists, w) {
                    Ok(()) => {
                        rest = more;
                    }
                    Err(_) => {
                        self.stop = Stop::Memory;
                        return None;
                    }
                },
                None => return self.held_argument(program, e.at, token, callee, more, list),
            }
        }
        let word = self.begin_call(program, Some(token), callee, list, depth);
        self.keep(program, list, word)
    }

    /// A call's further step, and what the call does: its arguments stand in a list, in which the scalars of the
    /// caller stand while the body runs. A call of an expression has its token.
    #[cycle(parts)]
    #[inline(always)]
    pub fn begin_call(
        &mut self,
        program: &'a TypedProgram,
        call: Option<u32>,
        callee: Callee,
        list: &mut Scalars,
        depth: u32,
    ) -> Option<u64>
        ensures { (done : List ℕ) → list.old ≡ map Some done → Values program.now
            (called (parts_at program.now call) program.now callee done (view self.old)) self.new result }
    {
        if self.stock == 0 {
            self.stop = Stop::Fails(Halt::NoStep);
            return None;
        }
        self.stock -= 1;
        match callee {
            Callee::Func(f) => {
                let is_main = f == program.main;
                let function = program.functions.as_slice().get(f as usize);
                self.begin_function(program, call, is_main, function, list, depth)
            }
            Callee::GetChar => self.next_char(program, list),
            Callee::PutChar => self.put_char(program, list),
            Callee::Exit => self.exit(program, list),
        }
    }

    // A call of a function, which may be main.
    #[cycle(parts)]
    #[inline(always)]
    fn begin_function(
        &mut self,
        program: &'a TypedProgram,
        call: Option<u32>,
        is_main: bool,
        f: Option<&'a TypedFunc>,
        list: &mut Scalars,
        depth: u32,
    ) -> Option<u64>
        ensures { (done : List ℕ) → list.old ≡ map Some done → Values program.now
            (enter (parts_at program.now call) is_main (behind f.entry) done (view self.old)) self.new result }
    {
        match f {
            None => self.ill_formed(program),
            Some(f) => {
                if list.len() != f.params as usize {
                    return self.ill_formed(program);
                }
                match room_with(self.room, f) {
                    None => {
                        self.stop = Stop::Fails(Halt::TooDeep);
                        None
                    },
                    Some(room) => { self.begin_with(program, call, is_main, f, list, room, depth) }
                }
            }
        }
    }

    // The scalars and arrays of a call whose frame has room. The list has its arguments, and then the caller's
    // scalars.
    #[inline(always)]
    fn enter(
        &mut self,
        f: &'a TypedFunc,
        list: &mut Scalars,
        count: u32,
        room: u32,
    ) -> Result<(), AllocError>
        requires count { count ≡ length (view self.old).arrays }
        requires room { room ≡ self.old.room + frame_of f.now }
        ensures after { OnOk result ((done : List ℕ) → list.old ≡ map Some done
            → view self.new ≡ entered f.now done (view self.old)) }
        ensures caller { OnOk result (list.new ≡ (view self.old).scalars) }
    {
        pad(
            list,
            &mut self.spare_lists,
            f.scalars.len().saturating_sub(list.len()),
        )?;
        add_arrays(&mut self.arrays, f)?;
        add_rows(&mut self.rows, f)?;
        std::mem::swap(&mut self.scalars, list);
        self.base = count;
        self.room = room;
        Ok(())
    }

    // The caller's scalars, arrays, base and room again.
    #[inline(always)]
    fn leave(&mut self, list: &mut Scalars, caller: Caller)
        ensures returned { self.new.returned ≡ self.old.returned }
        ensures after { view self.new ≡ record (view self.old) {
          scalars = list.old;
          arrays = take caller.count (view self.old).arrays;
          rows = take caller.count (view self.old).rows;
          base = caller.base;
          room = caller.room;
        } }
    {
        std::mem::swap(&mut self.scalars, list);
        self.arrays.keep_first(caller.count as usize);
        self.rows.truncate(caller.count as usize);
        self.base = caller.base;
        self.room = caller.room;
    }

    // What a call gives whose body was run to its end.
    #[inline(always)]
    fn given_back(&mut self, program: &'a TypedProgram, is_main: bool, x: Ran) -> Option<u64>
        ensures { Values program.now (returned is_main (signal_of x self.old.returned) (view self.old))
            self.new result }
    {
        match x {
            Ran::Returns => match self.returned {
                Some(w) => Some(w),
                None => self.give_nothing(program),
            },
            Ran::Nothing => {
                if is_main {
                    Some(0)
                } else {
                    self.give_nothing(program)
                }
            }
            _ => self.ill_formed(program),
        }
    }

    // The caller goes on with what a call gives whose body was run to its end.
    #[inline(always)]
    fn leave_with(
        &mut self,
        program: &'a TypedProgram,
        is_main: bool,
        list: &mut Scalars,
        caller: Caller,
        x: Ran,
    ) -> Option<u64>
        ensures { Values program.now
            (left is_main list.old caller.count caller.base caller.room
            (signal_of x self.old.returned) (view self.old)) self.new result }
    {
        self.leave(list, caller);
        self.given_back(program, is_main, x)
    }

    // The caller goes on behind the body of a call.
    #[inline(never)]
    fn held_caller(
        &mut self,
        program: &'a TypedProgram,
        call: Option<u32>,
        is_main: bool,
        list: &mut Scalars,
        caller: Caller,
    ) -> Option<u64>
        ensures { (r : Meant) → Stopped program.now r self.old
            → Values program.now (then (through_if call r) (left is_main list.old caller.count caller.base caller.room))
            self.new result }
    {
        let scalars = std::mem::replace(list, Scalars::none(self.alloc));
        let frame = Frame::Caller {
            is_main,
            scalars,
            caller,
        };
        self.held_call(program, call, frame)
    }

    // What follows the body of a call: the caller goes on, or its frame is left behind a body that stopped.
    #[inline(always)]
    fn end_call(
        &mut self,
        program: &'a TypedProgram,
        call: Option<u32>,
        is_main: bool,
        list: &mut Scalars,
        caller: Caller,
        x: Ran,
    ) -> Option<u64>
        ensures { (r : Meant) → Runs program.now r self.old x
            → Values program.now (then (through_if call r) (left is_main list.old caller.count caller.base caller.room))
            self.new result }
    {
        match x {
            Ran::Stops => self.held_caller(program, call, is_main, list, caller),
            x => self.leave_with(program, is_main, list, caller, x),
        }
    }

    // A call whose frame has room.
    #[cycle(parts)]
    #[tactic(auto, using(crate::proofs::TaskMeanings::body_is))]
    #[inline(always)]
    fn begin_with(
        &mut self,
        program: &'a TypedProgram,
        call: Option<u32>,
        is_main: bool,
        f: &'a TypedFunc,
        list: &mut Scalars,
        room: u32,
        depth: u32,
    ) -> Option<u64>
        requires room { room ≡ self.old.room + frame_of f.now }
        requires small { room ≤ most_frame_bytes }
        ensures { (done : List ℕ) → list.old ≡ map Some done → Values program.now
            (entered_if (parts_at program.now call) is_main true f.now done (view self.old)) self.new result }
    {
        let count = self.arrays.len();
        if count > 0xffff_ffff {
            self.stop = Stop::Memory;
            return None;
        }
        let caller = Caller {
            count: count as u32,
            base: self.base,
            room: self.room,
        };
        match self.enter(f, list, caller.count, room) {
            Err(_) => {
                self.stop = Stop::Memory;
                None
            }
            Ok(()) => {
                let x = self.run(program, &f.body, depth);
                self.end_call(program, call, is_main, list, caller, x)
            }
        }
    }

    /// The caller goes on with what the signal of a call's body gives.
    pub fn left(
        &mut self,
        program: &'a TypedProgram,
        is_main: bool,
        scalars: Scalars,
        caller: Caller,
        signal: Signal,
    ) -> Option<u64>
        ensures { Values program.now
            (left is_main scalars caller.count caller.base caller.room signal (view self.old))
            self.new result }
    {
        let mut list = scalars;
        self.leave(&mut list, caller);
        let word = self.gives(program, is_main, signal);
        self.keep(program, &mut list, word)
    }

    // What a call gives by the signal of its body.
    fn gives(&mut self, program: &'a TypedProgram, is_main: bool, signal: Signal) -> Option<u64>
        ensures { Values program.now (returned is_main signal (view self.old)) self.new result }
    {
        match signal {
            Signal::Returns(Some(w)) => Some(w),
            Signal::Returns(None) => self.give_nothing(program),
            Signal::Nothing => {
                if is_main {
                    Some(0)
                } else {
                    self.give_nothing(program)
                }
            }
            _ => self.ill_formed(program),
        }
    }
}
