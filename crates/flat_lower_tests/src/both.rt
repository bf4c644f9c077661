//! A text of C as a typed program and as a flat one, and what both come to.
use crate::machine::Stop;
use crate::running::{Ran, run};
use c_front::front;
use c_meaning::{Outcome, evaluate};
use c_tree::{MOST_SOURCE_BYTES, TypedProgram};
use flat_lower::lower;
use ir_forms::FlatProgram;
use std::alloc::Global;
use std::process::Abort;

/// More than any text here takes.
pub const MOST_STEPS: u64 = 4_000_000;

/// A text's typed program, and the flat program of that.
#[derive(Drop)]
pub struct Both {
    typed: TypedProgram,
    flat: FlatProgram,
}

/// An evaluation to the end of main.
#[derive(Drop)]
pub struct Evaluated {
    pub output: Vec<u8>,
    pub result: i64,
    pub steps: u64,
}

/// How an evaluation ends that does not come to the end of main.
#[derive(Clone, Copy, Debug, PartialEq, Eq)]
pub enum Cut {
    More,
    Undefined,
    Deep,
}

impl Both {
    pub fn of_text(rt: &impl Abort, alloc: Global, name: &str, text: &[u8]) -> Both {
        assert!(rt;
            text.len() as u64 <= MOST_SOURCE_BYTES,
            "{name}: the text is short"
        );
        let typed = front(alloc, text).expect(rt, name);
        let flat = lower(alloc, &typed).expect(rt, name);
        Both { typed, flat }
    }

    /// The evaluation within so many steps.
    pub fn evaluated(
        &self,
        rt: &impl Abort,
        alloc: Global,
        input: &[u8],
        steps: u64,
    ) -> Result<Evaluated, Cut> {
        match evaluate(alloc, &self.typed, input, steps).expect(rt, "memory") {
            Outcome::More { .. } => Err(Cut::More),
            Outcome::Undefined { .. } => Err(Cut::Undefined),
            Outcome::Deep { .. } => Err(Cut::Deep),
            Outcome::Done {
                output,
                result,
                steps,
            } => Ok(Evaluated {
                output: output.into_vec(),
                result,
                steps,
            }),
        }
    }

    /// The flat run within so many turns.
    pub fn ran(&self, rt: &impl Abort, alloc: Global, input: &[u8], turns: u64) -> Ran {
        run(alloc, &self.flat, input, turns).expect(rt, "memory")
    }

    /// With too few steps and with too few turns neither has ended, and what was put out is where
    /// the output begins.
    fn assert_unfinished(
        &self,
        rt: &impl Abort,
        alloc: Global,
        name: &str,
        input: &[u8],
        evaluated: &Evaluated,
        turns: u64,
    ) {
        let steps = evaluated.steps.saturating_sub(1);
        let cut = self.evaluated(rt, alloc, input, steps).err();
        assert_eq!(rt; cut, Some(Cut::More), "{name}: a step less");
        for few in [turns.saturating_sub(1), turns / 2, turns / 10] {
            let ran = self.ran(rt, alloc, input, few);
            assert_eq!(rt; ran.stop, Stop::More, "{name}: {few} turns");
            assert!(rt;
                evaluated.output.starts_with(ran.output.as_slice()),
                "{name}: the output after {few} turns"
            );
        }
    }

    /// Both put out the same and give the same, and a step pays for eight turns.
    pub fn assert_same(
        &self,
        rt: &impl Abort,
        alloc: Global,
        name: &str,
        input: &[u8],
    ) -> Evaluated {
        let evaluated = self
            .evaluated(rt, alloc, input, MOST_STEPS)
            .expect(rt, name);
        let turns = evaluated.steps.saturating_mul(8);
        let ran = self.ran(rt, alloc, input, turns);
        let word = evaluated.result.cast_unsigned();
        assert_eq!(rt; ran.stop, Stop::Done(Some(word)), "{name}: the flat run");
        assert_eq!(rt;
            ran.output.as_slice(),
            evaluated.output.as_slice(),
            "{name}: the flat run's output"
        );
        let taken = turns.saturating_sub(ran.left);
        self.assert_unfinished(rt, alloc, name, input, &evaluated, taken);
        evaluated
    }
}
