//! Assignments that are evaluated at once: those to a scalar and to an element by one index take no room for what
//! they are stored in.

ghost use Rattle.std.specs.Prelude.{Some};
ghost use Rattle.c_tree.specs.TypedTrees.{node_of};
ghost use Rattle.c_meaning_spec.specs.declared.Fault.TheVariants.{IllFormed};
ghost use Rattle.c_meaning_spec.specs.declared.Object.TheVariants.{InArray, InScalar};
ghost use Rattle.c_meaning_spec.specs.State.{with_some, store};
ghost use Rattle.c_meaning_spec.specs.inside.State.{then};
ghost use Rattle.c_meaning_spec.specs.Task.{Of, element_of as element_in_place, scalar_of as scalar_in};
ghost use Rattle.c_meaning_spec.specs.Expression.{assign, assign_to, assigned};
ghost use Rattle.c_meaning_spec.specs.Expression as meant_expression;
ghost use Rattle.c_meaning_spec.specs.Word as words;
ghost use Rattle.c_meaning_spec.specs.Telling.{telling};
ghost use Rattle.c_meaning.specs.inside.View.{view};
ghost use Rattle.c_meaning.specs.inside.Direct.{Values};

use crate::host::OPERATION;
use crate::store::{Store, scalar_of};
use crate::words::compound_of;
use c_meaning_spec::Object;
use c_tree::{BinaryOp, Kind, Place, TypedExpr, TypedNode, TypedProgram};

impl<'a> Store<'a> {
    // A word into a scalar.
    #[inline(always)]
    pub fn put_scalar(&mut self, program: &'a TypedProgram, i: u32, w: u64) -> Option<u64>
        ensures { Values program.now (store (view self.old) (InScalar i) w) self.new result }
    {
        if self.scalars.set_first(i, w) {
            Some(w)
        } else {
            self.put_later(program, i, w)
        }
    }

    // A word into a scalar that stands in none of the places.
    #[inline(never)]
    fn put_later(&mut self, program: &'a TypedProgram, i: u32, w: u64) -> Option<u64>
        ensures { Values program.now (store (view self.old) (InScalar i) w) self.new result }
    {
        self.put(program, Object::InScalar(i as u64), w)
    }

    /// What a compound assignment gives into an object, if it gives a value.
    pub fn put_compound(
        &mut self,
        program: &'a TypedProgram,
        op: BinaryOp,
        to: Option<Kind>,
        at: Kind,
        object: Object,
        old: u64,
        b: u64,
    ) -> Option<u64>
        ensures { Values program.now (with_some (words.compound_of op to at old b)
            (words.compound_fault op to at old b) (view self.old)
            (λ w. store (view self.old) object w)) self.new result }
    {
        match compound_of(op, to, at, old, b) {
            None => self.no_compound(program, op, to, at, old, b),
            Some(w) => self.put(program, object, w),
        }
    }

    /// An assignment, of whose left side only indexes are evaluated.
    #[cycle(parts)]
    #[inline(always)]
    pub fn assign_value(
        &mut self,
        program: &'a TypedProgram,
        op: Option<BinaryOp>,
        at: Kind,
        left: &'a TypedExpr,
        right: &'a TypedExpr,
        depth: u32,
    ) -> Option<u64>
        ensures { Values program.now
            (assign (telling program.now) op left.now.kind at (node_of left.now) right.now
            (view self.old)) self.new result }
    {
        let to = left.kind;
        match &left.node {
            TypedNode::Name(place) => self.assign_name(program, op, to, at, *place, right, depth),
            TypedNode::Element { array, row, index } => match row {
                None => {
                    self.assign_element(program, op, to, at, *array, index.get(), right, depth)
                }
                Some(row) => {
                    let (row, index) = (row.get(), index.get());
                    self.assign_row_value(program, op, to, at, *array, row, index, right, depth)
                }
            },
            _ => self.ill_formed(program),
        }
    }

    // An assignment to an element.
    #[cycle(parts)]
    #[inline(always)]
    fn assign_element(
        &mut self,
        program: &'a TypedProgram,
        op: Option<BinaryOp>,
        to: Option<Kind>,
        at: Kind,
        place: Place,
        index: &'a TypedExpr,
        right: &'a TypedExpr,
        depth: u32,
    ) -> Option<u64>
        ensures { Values program.now
            (then (telling program.now (Of index.now) (view self.old))
            (meant_expression.assign_element (telling program.now) op to at place right.now)) self.new result }
    {
        match self.value_of(program, index, depth) {
            Some(w) => self.assign_indexed(program, op, to, at, place, w, right, depth),
            None => self.held_store(program, index.at, op, to, at, place, right),
        }
    }

    /// An assignment to an element by the word of its index.
    #[cycle(parts)]
    #[inline(always)]
    pub fn assign_indexed(
        &mut self,
        program: &'a TypedProgram,
        op: Option<BinaryOp>,
        to: Option<Kind>,
        at: Kind,
        place: Place,
        w: u64,
        right: &'a TypedExpr,
        depth: u32,
    ) -> Option<u64>
        ensures { Values program.now
            (with_some (element_in_place place w (view self.old)) IllFormed (view self.old)
            (assign_to (telling program.now) op to at right.now (view self.old))) self.new result }
    {
        match op {
            None => match self.array_of(place) {
                None => self.ill_formed(program),
                Some(array) => self.assign_in_array(program, array, w, right, depth),
            },
            Some(op) => self.compound_element(program, op, to, at, place, w, right, depth),
        }
    }

    // A compound assignment to an element by the word of its index.
    #[cycle(parts)]
    #[inline(never)]
    fn compound_element(
        &mut self,
        program: &'a TypedProgram,
        op: BinaryOp,
        to: Option<Kind>,
        at: Kind,
        place: Place,
        w: u64,
        right: &'a TypedExpr,
        depth: u32,
    ) -> Option<u64>
        ensures { Values program.now
            (with_some (element_in_place place w (view self.old)) IllFormed (view self.old)
            (assign_to (telling program.now) (Some op) to at right.now (view self.old))) self.new result }
    {
        let depth = depth.saturating_sub(OPERATION);
        let object = self.element_of(place, w);
        self.put_value(program, Some(op), to, at, right, object, depth)
    }

    /// An assignment to an element that is known.
    #[cycle(parts)]
    #[inline(always)]
    pub fn assign_in_array(
        &mut self,
        program: &'a TypedProgram,
        array: u64,
        i: u64,
        right: &'a TypedExpr,
        depth: u32,
    ) -> Option<u64>
        ensures { Values program.now
            (then (telling program.now (Of right.now) (view self.old)) (assigned (InArray array i)))
            self.new result }
    {
        match self.value_of(program, right, depth) {
            Some(w) => self.put(program, Object::InArray(array, i), w),
            None => self.held_in_array(program, right.at, array, i),
        }
    }

    // An assignment to a name that is no scalar of the function, or by an operation.
    #[cycle(parts)]
    #[inline(never)]
    fn assign_other(
        &mut self,
        program: &'a TypedProgram,
        op: Option<BinaryOp>,
        to: Option<Kind>,
        at: Kind,
        place: Place,
        right: &'a TypedExpr,
        depth: u32,
    ) -> Option<u64>
        ensures { Values program.now
            (with_some (scalar_in place) IllFormed (view self.old)
            (assign_to (telling program.now) op to at right.now (view self.old))) self.new result }
    {
        let depth = depth.saturating_sub(OPERATION);
        self.put_value(program, op, to, at, right, scalar_of(place), depth)
    }

    // An assignment to a name.
    #[cycle(parts)]
    #[inline(always)]
    fn assign_name(
        &mut self,
        program: &'a TypedProgram,
        op: Option<BinaryOp>,
        to: Option<Kind>,
        at: Kind,
        place: Place,
        right: &'a TypedExpr,
        depth: u32,
    ) -> Option<u64>
        ensures { Values program.now
            (with_some (scalar_in place) IllFormed (view self.old)
            (assign_to (telling program.now) op to at right.now (view self.old))) self.new result }
    {
        match op {
            None => match place {
                Place::Scalar(i) => self.assign_scalar(program, i, right, depth),
                _ => self.assign_other(program, None, to, at, place, right, depth),
            },
            Some(op) => self.assign_other(program, Some(op), to, at, place, right, depth),
        }
    }

    // An assignment to a scalar of the function.
    #[cycle(parts)]
    #[inline(always)]
    fn assign_scalar(
        &mut self,
        program: &'a TypedProgram,
        i: u32,
        right: &'a TypedExpr,
        depth: u32,
    ) -> Option<u64>
        ensures { Values program.now
            (then (telling program.now (Of right.now) (view self.old)) (assigned (InScalar i)))
            self.new result }
    {
        match self.value_of(program, right, depth) {
            Some(w) => self.put_scalar(program, i, w),
            None => self.held_scalar(program, right.at, i),
        }
    }

    // An assignment to an object that is known.
    #[cycle(parts)]
    #[inline(always)]
    fn assign_object(
        &mut self,
        program: &'a TypedProgram,
        object: Object,
        right: &'a TypedExpr,
        depth: u32,
    ) -> Option<u64>
        ensures { Values program.now
            (then (telling program.now (Of right.now) (view self.old)) (assigned object)) self.new result }
    {
        match self.value_of(program, right, depth) {
            Some(w) => self.put(program, object, w),
            None => self.held_object(program, right.at, object),
        }
    }

    /// The right side of an assignment to an object, if there is the object.
    #[cycle(parts)]
    #[inline(never)]
    pub fn put_value(
        &mut self,
        program: &'a TypedProgram,
        op: Option<BinaryOp>,
        to: Option<Kind>,
        at: Kind,
        right: &'a TypedExpr,
        object: Option<Object>,
        depth: u32,
    ) -> Option<u64>
        ensures { Values program.now
            (with_some object IllFormed (view self.old)
            (assign_to (telling program.now) op to at right.now (view self.old))) self.new result }
    {
        let depth = depth.saturating_sub(OPERATION);
        match object {
            None => self.ill_formed(program),
            Some(object) => match op {
                None => self.assign_object(program, object, right, depth),
                Some(op) => match self.load(object) {
                    None => self.no_word(program, object),
                    Some(old) => match self.value_of(program, right, depth) {
                        Some(w) => { self.put_compound(program, op, to, at, object, old, w) }
                        None => self.held_compound(program, right.at, op, to, at, object, old),
                    },
                },
            },
        }
    }
}
