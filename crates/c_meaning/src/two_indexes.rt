//! Assignments to elements by two indexes that are evaluated at once.

ghost use Rattle.std.specs.Prelude.{Some};
ghost use Rattle.c_meaning_spec.specs.declared.Fault.TheVariants.{IllFormed};
ghost use Rattle.c_meaning_spec.specs.State.{with_some};
ghost use Rattle.c_meaning_spec.specs.inside.State.{then};
ghost use Rattle.c_meaning_spec.specs.Task.{Of, row_element_of as row_element_in_place};
ghost use Rattle.c_meaning_spec.specs.Expression.{assign_to};
ghost use Rattle.c_meaning_spec.specs.Expression as meant_expression;
ghost use Rattle.c_meaning_spec.specs.Telling.{telling};
ghost use Rattle.c_meaning.specs.inside.View.{view};
ghost use Rattle.c_meaning.specs.inside.Direct.{Values};

use crate::host::OPERATION;
use crate::store::Store;
use c_tree::{BinaryOp, Kind, Place, TypedExpr, TypedProgram};

impl<'a> Store<'a> {
    /// An assignment to an element by two indexes.
    #[cycle(parts)]
    #[inline(never)]
    pub fn assign_row_value(
        &mut self,
        program: &'a TypedProgram,
        op: Option<BinaryOp>,
        to: Option<Kind>,
        at: Kind,
        place: Place,
        row: &'a TypedExpr,
        index: &'a TypedExpr,
        right: &'a TypedExpr,
        depth: u32,
    ) -> Option<u64>
        ensures { Values program.now
            (then (telling program.now (Of row.now) (view self.old))
            (meant_expression.assign_after_row (telling program.now) op to at place index.now right.now))
            self.new result }
    {
        let depth = depth.saturating_sub(OPERATION);
        match self.value_of(program, row, depth) {
            Some(i) => self.assign_after_row(program, op, to, at, place, i, index, right, depth),
            None => self.held_store_in_row(program, row.at, op, to, at, place, index, right),
        }
    }

    /// An assignment to an element by the word of its first index.
    #[cycle(parts)]
    #[inline(always)]
    pub fn assign_after_row(
        &mut self,
        program: &'a TypedProgram,
        op: Option<BinaryOp>,
        to: Option<Kind>,
        at: Kind,
        place: Place,
        row: u64,
        index: &'a TypedExpr,
        right: &'a TypedExpr,
        depth: u32,
    ) -> Option<u64>
        ensures { Values program.now
            (then (telling program.now (Of index.now) (view self.old))
            (meant_expression.assign_row (telling program.now) op to at place row right.now))
            self.new result }
    {
        match self.value_of(program, index, depth) {
            Some(j) => self.assign_in_row(program, op, to, at, place, row, j, right, depth),
            None => self.held_row_store(program, index.at, op, to, at, place, row, right),
        }
    }

    /// An assignment to an element by the words of its two indexes.
    #[cycle(parts)]
    #[inline(always)]
    pub fn assign_in_row(
        &mut self,
        program: &'a TypedProgram,
        op: Option<BinaryOp>,
        to: Option<Kind>,
        at: Kind,
        place: Place,
        row: u64,
        j: u64,
        right: &'a TypedExpr,
        depth: u32,
    ) -> Option<u64>
        ensures { Values program.now
            (with_some (row_element_in_place place row j (view self.old)) IllFormed (view self.old)
            (assign_to (telling program.now) op to at right.now (view self.old))) self.new result }
    {
        match op {
            None => match self.array_of(place) {
                None => self.ill_formed(program),
                Some(array) => {
                    let at = self.place_of(array, row, j);
                    self.assign_in_array(program, array, at, right, depth)
                }
            },
            Some(op) => self.compound_in_row(program, op, to, at, place, row, j, right, depth),
        }
    }

    // A compound assignment to an element by the words of its two indexes.
    #[cycle(parts)]
    #[inline(never)]
    fn compound_in_row(
        &mut self,
        program: &'a TypedProgram,
        op: BinaryOp,
        to: Option<Kind>,
        at: Kind,
        place: Place,
        row: u64,
        j: u64,
        right: &'a TypedExpr,
        depth: u32,
    ) -> Option<u64>
        ensures { Values program.now
            (with_some (row_element_in_place place row j (view self.old)) IllFormed (view self.old)
            (assign_to (telling program.now) (Some op) to at right.now (view self.old))) self.new result }
    {
        let depth = depth.saturating_sub(OPERATION);
        let object = self.row_element_of(place, row, j);
        self.put_value(program, Some(op), to, at, right, object, depth)
    }
}
