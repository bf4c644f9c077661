//! What an if that is an item adds to a block: its test, and both legs.

use crate::estimate::{Estimate, KEPT, register_of};
use crate::producers::{Producer, Producers, REGISTERS};
use ir_forms::Arg;

/// The instructions of a leg's null, with what brings it the bit of the test.
const NULL: u32 = 2;

/// How many places a null names.
const NULL_TARGETS: u32 = 2;

/// What stood before the legs of an if.
#[derive(Clone, Copy)]
pub struct Legs {
    before: Producers,
    /// the places that the bit of the if around it still names
    outer: u8,
    stores: u32,
}

impl Estimate {
    /// The test of an if that is an item. Gives the places that its bit names and nothing takes as yet; legs take
    /// them.
    fn decide(&mut self, x: Arg) -> u8 {
        match x {
            Arg::Const(word) => {
                self.constant(word);
                self.operation();
                1
            }
            Arg::Var(v) => {
                let at = register_of(v);
                if self.has_bit(at) {
                    let bit = self.producers.get(at);
                    self.producers.put(at, bit.full());
                    bit.targets.saturating_sub(bit.uses)
                } else {
                    self.take(at);
                    self.operation();
                    1
                }
            }
        }
    }

    /// The first leg of an if begins; gives what stood before it.
    pub fn begin_legs(&mut self, test: Arg) -> Legs {
        self.ifs = self.ifs.saturating_add(1);
        let free = self.decide(test);
        let legs = Legs {
            before: self.producers,
            outer: self.free,
            stores: self.stores,
        };
        self.free = free;
        self.depth = self.depth.saturating_add(1);
        legs
    }

    /// The second leg begins where the first did; gives what that left.
    pub fn turn_leg(&mut self, legs: &Legs) -> Producers {
        let first = self.producers;
        for register in 0..REGISTERS {
            if first.get(register).is_of_leg(self.depth) {
                self.producers
                    .put(register, legs.before.get(register).full());
            }
        }
        first
    }

    /// Both legs end. A register that neither sets keeps its bit.
    pub fn end_legs(&mut self, legs: &Legs, first: &Producers) {
        let depth = self.depth;
        self.depth = depth.saturating_sub(1);
        let mut kept = 0;
        for register in 0..REGISTERS {
            let producer = self.producers.get(register);
            let one = first.get(register).is_of_leg(depth);
            let other = producer.is_of_leg(depth);
            if one && other {
                self.meet(register, legs, first.get(register).or(producer, self.depth));
            } else if one {
                kept = self.meet_alone(register, legs, first.get(register), kept);
            } else if other {
                kept = self.meet_alone(register, legs, producer, kept);
            }
        }
        self.add_nulls(kept, self.stores.saturating_sub(legs.stores));
        self.free = legs.outer;
    }

    /// The nulls of an if, for registers that a leg keeps and for stores: each of these has a null store, which takes
    /// the null twice.
    fn add_nulls(&mut self, kept: u32, stores: u32) {
        let taken = kept.saturating_add(stores.saturating_mul(2));
        if taken > 0 {
            self.count(2 * NULL);
            self.count(stores);
            self.count(taken.saturating_sub(NULL_TARGETS));
        }
    }

    /// A register has another word behind legs.
    fn meet(&mut self, register: usize, legs: &Legs, producer: Producer) {
        if !legs.before.get(register).set {
            self.count_write();
        }
        if producer.kept > 0 {
            self.count(KEPT * producer.sources.saturating_sub(1) as u32);
        }
        self.producers.put(register, producer);
    }

    /// A register that one leg alone sets: the other lets its word before through, or keeps it.
    /// Gives how many registers are kept, with this one.
    fn meet_alone(&mut self, register: usize, legs: &Legs, mine: Producer, kept: u32) -> u32 {
        let old = legs.before.get(register);
        if old.set {
            self.count(2 + old.sources as u32 + KEPT * old.kept as u32);
            let through = Producer {
                targets: 2,
                uses: 1,
                sources: 1,
                kept: 0,
                ..old
            };
            self.meet(register, legs, mine.or(through, self.depth));
            kept
        } else {
            let keeping = Producer {
                targets: 2,
                uses: 1,
                sources: 0,
                kept: 1,
                ..old
            };
            self.meet(register, legs, mine.or(keeping, self.depth));
            kept.saturating_add(1)
        }
    }
}
