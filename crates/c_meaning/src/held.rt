//! What follows an expression that was not evaluated to its end, in functions of their own, so that those that
//! evaluate have no room for frames.

ghost use Rattle.std.specs.Prelude.{◌≡◌, ◌++◌, ◌∷◌, [], map, Some};
ghost use Rattle.c_meaning_spec.specs.State.{Result as Meant, want};
ghost use Rattle.c_meaning_spec.specs.inside.State.{then};
ghost use Rattle.c_meaning_spec.specs.Expression.{after_left, operated, assign_element, assigned};
ghost use Rattle.c_meaning_spec.specs.Expression.{after_and, after_or, converting, compounded};
ghost use Rattle.c_meaning_spec.specs.Expression.{assign_row, assign_after_row};
ghost use Rattle.c_meaning_spec.specs.Call.{arguments};
ghost use Rattle.c_meaning_spec.specs.Task.{element as element_in, row_element, after_row};
ghost use Rattle.c_meaning_spec.specs.Telling.{calling, telling};
ghost use Rattle.c_meaning.specs.inside.Direct.{Stopped, StoppedAt, Values};
ghost use Rattle.c_meaning.specs.inside.Given.{words};
ghost use Rattle.c_meaning_spec.specs.declared.Object.TheVariants.{InArray, InScalar};

use crate::arguments::Arguments;
use crate::frame::{Frame, Operand};
use crate::scalars::Scalars;
use crate::store::Store;
use base::Boxed;
use c_meaning_spec::Object;
use c_tree::{BinaryOp, Callee, Kind, Place, TypedExpr, TypedProgram};

impl<'a> Store<'a> {
    /// The right operand follows the left one.
    #[inline(never)]
    pub fn held_left(
        &mut self,
        program: &'a TypedProgram,
        token: u32,
        op: BinaryOp,
        kind: Option<Kind>,
        right: &'a TypedExpr,
    ) -> Option<u64>
        ensures { (r : Meant) → StoppedAt program.now token r self.old
            → Values program.now (then r (after_left (telling program.now) op kind right.now)) self.new result }
    {
        self.held(
            program,
            token,
            Frame::Operand {
                operand: Operand::Right { op, kind },
                right,
            },
        )
    }

    /// An operation follows its right operand.
    #[inline(never)]
    pub fn held_right(
        &mut self,
        program: &'a TypedProgram,
        token: u32,
        op: BinaryOp,
        kind: Option<Kind>,
        left: u64,
    ) -> Option<u64>
        ensures { (r : Meant) → StoppedAt program.now token r self.old
            → Values program.now (then r (operated op kind left)) self.new result }
    {
        self.held(program, token, Frame::Operated { op, kind, left })
    }

    /// The second side of `&&` follows the first.
    #[inline(never)]
    pub fn held_and(
        &mut self,
        program: &'a TypedProgram,
        token: u32,
        right: &'a TypedExpr,
    ) -> Option<u64>
        ensures { (r : Meant) → StoppedAt program.now token r self.old
            → Values program.now (then r (after_and (telling program.now) right.now)) self.new result }
    {
        self.held(
            program,
            token,
            Frame::Operand {
                operand: Operand::OfAnd,
                right,
            },
        )
    }

    /// The second side of `||` follows the first.
    #[inline(never)]
    pub fn held_or(
        &mut self,
        program: &'a TypedProgram,
        token: u32,
        right: &'a TypedExpr,
    ) -> Option<u64>
        ensures { (r : Meant) → StoppedAt program.now token r self.old
            → Values program.now (then r (after_or (telling program.now) right.now)) self.new result }
    {
        self.held(
            program,
            token,
            Frame::Operand {
                operand: Operand::OfOr,
                right,
            },
        )
    }

    /// A conversion that typing adds follows what it converts, whose place is its own.
    #[inline(never)]
    pub fn held_conversion(&mut self, program: &'a TypedProgram, to: Kind) -> Option<u64>
        ensures { (r : Meant) → Stopped program.now r self.old
            → Values program.now (then r (converting to)) self.new result }
    {
        self.held_on(program, Frame::Converting(to))
    }

    /// A cast follows what it converts.
    #[inline(never)]
    pub fn held_cast(&mut self, program: &'a TypedProgram, token: u32, to: Kind) -> Option<u64>
        ensures { (r : Meant) → StoppedAt program.now token r self.old
            → Values program.now (then r (converting to)) self.new result }
    {
        self.held(program, token, Frame::Converting(to))
    }

    /// An element follows its index.
    #[inline(never)]
    pub fn held_element(
        &mut self,
        program: &'a TypedProgram,
        token: u32,
        array: Place,
    ) -> Option<u64>
        ensures { (r : Meant) → StoppedAt program.now token r self.old
            → Values program.now (then r (element_in array)) self.new result }
    {
        self.held(program, token, Frame::Element(array))
    }

    /// The second index of an element follows the first.
    #[inline(never)]
    pub fn held_row(
        &mut self,
        program: &'a TypedProgram,
        token: u32,
        array: Place,
        index: &'a TypedExpr,
    ) -> Option<u64>
        ensures { (r : Meant) → StoppedAt program.now token r self.old
            → Values program.now (then r (after_row (telling program.now) array index.now)) self.new result }
    {
        let operand = Operand::AfterRow(array);
        let frame = Frame::Operand {
            operand,
            right: index,
        };
        self.held(program, token, frame)
    }

    /// An element follows its second index.
    #[inline(never)]
    pub fn held_row_element(
        &mut self,
        program: &'a TypedProgram,
        token: u32,
        place: Place,
        row: u64,
    ) -> Option<u64>
        ensures { (r : Meant) → StoppedAt program.now token r self.old
            → Values program.now (then r (row_element place row)) self.new result }
    {
        self.held(program, token, Frame::RowElement { place, row })
    }

    /// An object is set after the value.
    #[inline(never)]
    pub fn held_object(
        &mut self,
        program: &'a TypedProgram,
        token: u32,
        object: Object,
    ) -> Option<u64>
        ensures { (r : Meant) → StoppedAt program.now token r self.old
            → Values program.now (then r (assigned object)) self.new result }
    {
        self.held(program, token, Frame::Assigned(object))
    }

    /// An object is set after the right operand of a compound assignment.
    #[inline(never)]
    pub fn held_compound(
        &mut self,
        program: &'a TypedProgram,
        token: u32,
        op: BinaryOp,
        to: Option<Kind>,
        at: Kind,
        object: Object,
        old: u64,
    ) -> Option<u64>
        ensures { (r : Meant) → StoppedAt program.now token r self.old
            → Values program.now (then r (compounded op to at object old)) self.new result }
    {
        let frame = Frame::Compounded {
            op,
            to,
            at,
            object,
            old,
        };
        self.held(program, token, frame)
    }

    /// The right side of an assignment to an element follows the second index.
    #[inline(never)]
    pub fn held_row_store(
        &mut self,
        program: &'a TypedProgram,
        token: u32,
        op: Option<BinaryOp>,
        to: Option<Kind>,
        at: Kind,
        place: Place,
        row: u64,
        right: &'a TypedExpr,
    ) -> Option<u64>
        ensures { (r : Meant) → StoppedAt program.now token r self.old
            → Values program.now (then r (assign_row (telling program.now) op to at place row right.now))
            self.new result }
    {
        let operand = Operand::StoredRow {
            op,
            to,
            at,
            place,
            row,
        };
        self.held(program, token, Frame::Operand { operand, right })
    }

    /// The second index of an assignment to an element follows the first.
    #[inline(never)]
    pub fn held_store_in_row(
        &mut self,
        program: &'a TypedProgram,
        token: u32,
        op: Option<BinaryOp>,
        to: Option<Kind>,
        at: Kind,
        place: Place,
        index: &'a TypedExpr,
        right: &'a TypedExpr,
    ) -> Option<u64>
        ensures { (r : Meant) → StoppedAt program.now token r self.old
            → Values program.now
            (then r (assign_after_row (telling program.now) op to at place index.now right.now))
            self.new result }
    {
        let frame = Frame::StoredAfterRow {
            op,
            to,
            at,
            place,
            index,
            right,
        };
        self.held(program, token, frame)
    }

    /// The further arguments of a call follow one.
    #[inline(never)]
    pub fn held_argument(
        &mut self,
        program: &'a TypedProgram,
        token: u32,
        call: u32,
        callee: Callee,
        rest: &'a [Boxed<TypedExpr>],
        list: &mut Scalars,
    ) -> Option<u64>
        requires given { map Some (words list.old) ≡ list.old }
        ensures { (r : Meant) → StoppedAt program.now token r self.old
            → Values program.now (then r (λ v s. want v s
            (λ w. arguments (calling call (telling program.now)) program.now callee rest.now
            (words list.old ++ w ∷ []) s))) self.new result }
    {
        let scalars = std::mem::replace(list, Scalars::none(self.alloc));
        let done = Arguments::of(scalars);
        self.held(
            program,
            token,
            Frame::Argument {
                token: call,
                callee,
                rest,
                done,
            },
        )
    }

    /// A scalar is set after the value.
    #[inline(never)]
    pub fn held_scalar(&mut self, program: &'a TypedProgram, token: u32, i: u32) -> Option<u64>
        ensures { (r : Meant) → StoppedAt program.now token r self.old
            → Values program.now (then r (assigned (InScalar i))) self.new result }
    {
        self.held(program, token, Frame::Assigned(Object::InScalar(i as u64)))
    }

    /// An element is set after the value.
    #[inline(never)]
    pub fn held_in_array(
        &mut self,
        program: &'a TypedProgram,
        token: u32,
        array: u64,
        i: u64,
    ) -> Option<u64>
        ensures { (r : Meant) → StoppedAt program.now token r self.old
            → Values program.now (then r (assigned (InArray array i))) self.new result }
    {
        self.held(program, token, Frame::Assigned(Object::InArray(array, i)))
    }

    /// The right side of an assignment to an element follows the index.
    #[inline(never)]
    pub fn held_store(
        &mut self,
        program: &'a TypedProgram,
        token: u32,
        op: Option<BinaryOp>,
        to: Option<Kind>,
        at: Kind,
        place: Place,
        right: &'a TypedExpr,
    ) -> Option<u64>
        ensures { (r : Meant) → StoppedAt program.now token r self.old
            → Values program.now (then r (assign_element (telling program.now) op to at place right.now))
            self.new result }
    {
        let operand = Operand::Stored { op, to, at, place };
        self.held(program, token, Frame::Operand { operand, right })
    }
}
