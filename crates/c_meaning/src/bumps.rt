//! `++` and `--` that are evaluated at once: that of a scalar takes no room for what it is stored in.

ghost use Rattle.c_tree.specs.TypedTrees.{node_of};
ghost use Rattle.c_meaning_spec.specs.declared.Fault.TheVariants.{IllFormed};
ghost use Rattle.c_meaning_spec.specs.declared.Object.TheVariants.{InScalar};
ghost use Rattle.c_meaning_spec.specs.State.{with_some};
ghost use Rattle.c_meaning_spec.specs.inside.State.{then};
ghost use Rattle.c_meaning_spec.specs.Task.{Of, scalar_of as scalar_in};
ghost use Rattle.c_meaning_spec.specs.Expression.{bump};
ghost use Rattle.c_meaning_spec.specs.Expression as meant_expression;
ghost use Rattle.c_meaning_spec.specs.Telling.{telling};
ghost use Rattle.c_meaning.specs.inside.View.{view};
ghost use Rattle.c_meaning.specs.inside.Direct.{Values};

use crate::frame::{Frame, Operand};
use crate::host::BUMP;
use crate::store::{Store, scalar_of};
use crate::words::{bump_of, bump_value};
use c_meaning_spec::Object;
use c_tree::{BumpOp, Kind, Place, TypedExpr, TypedNode, TypedProgram};

impl<'a> Store<'a> {
    /// `++` and `--` on an object, if there is the object.
    #[inline(never)]
    pub fn bumped(
        &mut self,
        program: &'a TypedProgram,
        op: BumpOp,
        kind: Option<Kind>,
        object: Option<Object>,
    ) -> Option<u64>
        ensures { Values program.now (with_some object IllFormed (view self.old)
            (meant_expression.bump_object op kind (view self.old))) self.new result }
    {
        match object {
            None => self.ill_formed(program),
            Some(object) => match self.load(object) {
                None => self.no_word(program, object),
                Some(old) => match bump_of(op, kind, old) {
                    None => self.no_bump(program, op, kind, old),
                    Some(new) => {
                        if self.set(object, new) {
                            Some(bump_value(op, old, new))
                        } else {
                            self.no_word(program, object)
                        }
                    }
                },
            },
        }
    }

    // `++` and `--` on a name that is no scalar of the function.
    #[inline(never)]
    fn bump_other(
        &mut self,
        program: &'a TypedProgram,
        op: BumpOp,
        kind: Option<Kind>,
        place: Place,
    ) -> Option<u64>
        ensures { Values program.now (with_some (scalar_in place) IllFormed (view self.old)
            (meant_expression.bump_object op kind (view self.old))) self.new result }
    {
        self.bumped(program, op, kind, scalar_of(place))
    }

    // `++` and `--` on a name.
    #[inline(always)]
    fn bump_name(
        &mut self,
        program: &'a TypedProgram,
        op: BumpOp,
        kind: Option<Kind>,
        place: Place,
    ) -> Option<u64>
        ensures { Values program.now (with_some (scalar_in place) IllFormed (view self.old)
            (meant_expression.bump_object op kind (view self.old))) self.new result }
    {
        match place {
            Place::Scalar(i) => self.bump_scalar(program, op, kind, i),
            place => self.bump_other(program, op, kind, place),
        }
    }

    // `++` and `--` on a scalar of the function.
    #[inline(always)]
    fn bump_scalar(
        &mut self,
        program: &'a TypedProgram,
        op: BumpOp,
        kind: Option<Kind>,
        i: u32,
    ) -> Option<u64>
        ensures { Values program.now
            (meant_expression.bump_object op kind (view self.old) (InScalar i)) self.new result }
    {
        match self.scalars.first(i) {
            None => self.bump_other(program, op, kind, Place::Scalar(i)),
            Some(old) => match bump_of(op, kind, old) {
                None => self.no_bump(program, op, kind, old),
                Some(new) => {
                    if self.scalars.set_first(i, new) {
                        Some(bump_value(op, old, new))
                    } else {
                        self.bump_other(program, op, kind, Place::Scalar(i))
                    }
                }
            },
        }
    }

    /// `++` and `--`, of whose operand only indexes are evaluated.
    #[cycle(parts)]
    #[inline(always)]
    pub fn bump_value(
        &mut self,
        program: &'a TypedProgram,
        op: BumpOp,
        e: &'a TypedExpr,
        depth: u32,
    ) -> Option<u64>
        ensures { Values program.now
            (bump (telling program.now) op e.now.kind (node_of e.now) (view self.old)) self.new result }
    {
        let kind = e.kind;
        match &e.node {
            TypedNode::Name(place) => self.bump_name(program, op, kind, *place),
            TypedNode::Element { array, row, index } => match row {
                None => self.bump_element(program, op, kind, *array, index.get(), depth),
                Some(row) => {
                    self.bump_row_value(program, op, kind, *array, row.get(), index.get(), depth)
                }
            },
            _ => self.ill_formed(program),
        }
    }

    // `++` and `--` on an element.
    #[cycle(parts)]
    #[inline(never)]
    fn bump_element(
        &mut self,
        program: &'a TypedProgram,
        op: BumpOp,
        kind: Option<Kind>,
        place: Place,
        index: &'a TypedExpr,
        depth: u32,
    ) -> Option<u64>
        ensures { Values program.now
            (then (telling program.now (Of index.now) (view self.old))
            (meant_expression.bump_element op kind place)) self.new result }
    {
        let depth = depth.saturating_sub(BUMP);
        match self.value_of(program, index, depth) {
            Some(w) => {
                let object = self.element_of(place, w);
                self.bumped(program, op, kind, object)
            }
            None => self.held(program, index.at, Frame::BumpElement { op, kind, place }),
        }
    }

    // `++` and `--` on an element by two indexes.
    #[cycle(parts)]
    #[inline(never)]
    fn bump_row_value(
        &mut self,
        program: &'a TypedProgram,
        op: BumpOp,
        kind: Option<Kind>,
        place: Place,
        row: &'a TypedExpr,
        index: &'a TypedExpr,
        depth: u32,
    ) -> Option<u64>
        ensures { Values program.now
            (then (telling program.now (Of row.now) (view self.old))
            (meant_expression.bump_after_row (telling program.now) op kind place index.now)) self.new result }
    {
        let depth = depth.saturating_sub(BUMP);
        match self.value_of(program, row, depth) {
            Some(i) => self.bump_after_row(program, op, kind, place, i, index, depth),
            None => {
                let operand = Operand::BumpAfterRow { op, kind, place };
                let frame = Frame::Operand {
                    operand,
                    right: index,
                };
                self.held(program, row.at, frame)
            }
        }
    }

    /// `++` and `--` on an element by the word of its first index.
    #[cycle(parts)]
    #[inline(always)]
    pub fn bump_after_row(
        &mut self,
        program: &'a TypedProgram,
        op: BumpOp,
        kind: Option<Kind>,
        place: Place,
        row: u64,
        index: &'a TypedExpr,
        depth: u32,
    ) -> Option<u64>
        ensures { Values program.now
            (then (telling program.now (Of index.now) (view self.old))
            (meant_expression.bump_row op kind place row)) self.new result }
    {
        match self.value_of(program, index, depth) {
            Some(j) => {
                let object = self.row_element_of(place, row, j);
                self.bumped(program, op, kind, object)
            }
            None => self.held(
                program,
                index.at,
                Frame::BumpRow {
                    op,
                    kind,
                    place,
                    row,
                },
            ),
        }
    }
}
