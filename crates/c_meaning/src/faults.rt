//! Why what is evaluated is undefined, on the ways that are seldom gone.

ghost use Rattle.std.specs.Prelude.{◌≡◌, length, slice_get};
ghost use Rattle.c_meaning_spec.specs.State.{Over, missing, no_word, outside, row_in};
ghost use Rattle.c_meaning_spec.specs.declared.Halt.TheVariants.{Faults};
ghost use Rattle.c_meaning_spec.specs.declared.Fault.TheVariants.{IllFormed};
ghost use Rattle.c_meaning_spec.specs.Word as words;
ghost use Rattle.c_meaning_spec.specs.declared.Object.TheVariants.{InArray, InScalar};
ghost use Rattle.c_meaning.specs.inside.View.{view};
ghost use Rattle.c_meaning.specs.inside.Direct.{Stopped, Values};

use crate::direct::Stop;
use crate::store::{Store, row_size_at};
use crate::words::{binary_fault, bump_fault, compound_fault, unary_fault};
use c_meaning_spec::{Fault, Halt, Object};
use c_tree::{BinaryOp, BumpOp, Kind, TypedProgram, UnaryOp};

// Why there is no such element of an array.
fn outside_of(size: Option<u32>, at: u64, count: u64) -> Fault
    ensures { result ≡ outside size at count }
{
    match size {
        None => Fault::Outside(at, count),
        Some(size) => Fault::OutsideRows(count, size as u64),
    }
}

impl<'a> Store<'a> {
    // Why a scalar holds no word.
    #[tactic(auto, using(crate::proofs::Missing::scalar_there, crate::proofs::Missing::scalar_past))]
    fn missing_scalar(&self, i: u64) -> Fault
        ensures { result ≡ missing (view self.now) (InScalar i) }
    {
        if i < self.scalars.len() as u64 {
            Fault::NeverSet
        } else {
            Fault::IllFormed
        }
    }

    // Why an element holds no word.
    #[tactic(auto, using(crate::proofs::Missing::element_there, crate::proofs::Missing::element_past))]
    fn missing_element(&self, array: u64, at: u64) -> Fault
        ensures { result ≡ missing (view self.now) (InArray array at) }
    {
        let count = self.arrays.count_in(array) as u64;
        if at < count {
            Fault::NeverSet
        } else {
            outside_of(row_size_at(self.rows.as_slice(), array), at, count)
        }
    }

    /// Why an object holds no word, or cannot be stored into.
    #[inline(never)]
    pub fn missing(&self, object: Object) -> Fault
        ensures { result ≡ missing (view self.now) object }
    {
        match object {
            Object::InScalar(i) => self.missing_scalar(i),
            Object::InArray(array, at) => self.missing_element(array, at),
        }
    }

    /// The evaluation is undefined for this reason.
    #[inline(never)]
    pub fn faults(&mut self, program: &'a TypedProgram, fault: Fault) -> Option<u64>
        ensures { Values program.now (Over (Faults fault) (view self.old)) self.new result }
    {
        self.stop = Stop::Fails(Halt::Faults(fault));
        None
    }

    /// What no typed program does.
    #[inline(never)]
    pub fn ill_formed(&mut self, program: &'a TypedProgram) -> Option<u64>
        ensures { Values program.now (Over (Faults IllFormed) (view self.old)) self.new result }
    {
        self.stop = Stop::Fails(Halt::Faults(Fault::IllFormed));
        None
    }

    /// An object holds no word, or cannot be stored into.
    #[inline(never)]
    pub fn no_word(&mut self, program: &'a TypedProgram, object: Object) -> Option<u64>
        ensures { Values program.now (Over (Faults (missing (view self.old) object)) (view self.old)) self.new result }
    {
        let fault = self.missing(object);
        self.faults(program, fault)
    }

    /// An operation on two words has no value.
    #[inline(never)]
    pub fn no_binary(
        &mut self,
        program: &'a TypedProgram,
        op: BinaryOp,
        kind: Option<Kind>,
        a: u64,
        b: u64,
    ) -> Option<u64>
        ensures { Values program.now (Over (Faults (words.binary_fault op kind a b)) (view self.old))
            self.new result }
    {
        self.faults(program, binary_fault(op, kind, a, b))
    }

    /// An operation on one word has no value.
    #[inline(never)]
    pub fn no_unary(
        &mut self,
        program: &'a TypedProgram,
        op: UnaryOp,
        kind: Option<Kind>,
        a: u64,
    ) -> Option<u64>
        ensures { Values program.now (Over (Faults (words.unary_fault op kind a)) (view self.old)) self.new result }
    {
        self.faults(program, unary_fault(op, kind, a))
    }

    /// A compound assignment has no value.
    #[inline(never)]
    pub fn no_compound(
        &mut self,
        program: &'a TypedProgram,
        op: BinaryOp,
        to: Option<Kind>,
        at: Kind,
        old: u64,
        b: u64,
    ) -> Option<u64>
        ensures { Values program.now (Over (Faults (words.compound_fault op to at old b)) (view self.old))
            self.new result }
    {
        self.faults(program, compound_fault(op, to, at, old, b))
    }

    /// `++` or `--` has no value.
    #[inline(never)]
    pub fn no_bump(
        &mut self,
        program: &'a TypedProgram,
        op: BumpOp,
        kind: Option<Kind>,
        old: u64,
    ) -> Option<u64>
        ensures { Values program.now (Over (Faults (words.bump_fault op kind old)) (view self.old)) self.new result }
    {
        self.faults(program, bump_fault(op, kind, old))
    }
}
