//! In which order instructions are placed: none before those that feed it.

ghost use Rattle.std.specs.Prelude.{◌<◌};

use trips_isa::{Inst, Spot};

/// The slots whose producers are all placed, in the order in which that was found.
#[derive(Drop)]
pub struct Order {
    // how many targets of instructions that are not placed name a slot
    waiting: [u8; 128],
    queue: [u8; 128],
    found: usize,
}

/// The slot that a target feeds; 128 where it feeds none.
pub fn fed(spot: Spot) -> u8 {
    match spot {
        Spot::Left(s) => s,
        Spot::Right(s) => s,
        Spot::Pred(s) => s,
        _ => 128,
    }
}

/// The instruction in a slot, if there is one.
pub fn inst_at(insts: &[Option<Inst>], s: u8) -> Option<Inst> {
    match insts.get(s as usize) {
        Some(slot) => *slot,
        None => None,
    }
}

impl Order {
    /// The slots that no instruction feeds come first. The instructions stand one behind the other from the first slot
    /// on: what stands behind a slot without one is not placed.
    pub fn of(insts: &[Option<Inst>]) -> Order {
        let mut order = Order {
            waiting: [0; 128],
            queue: [0; 128],
            found: 0,
        };
        order.expect_all(insts);
        order.begin_all(insts);
        order
    }

    // What each instruction gives is expected in the slots that it feeds.
    fn expect_all(&mut self, insts: &[Option<Inst>]) {
        for slot in insts {
            if !self.expect_of(*slot) {
                return;
            }
        }
    }

    // The same of one slot; whether it has an instruction.
    fn expect_of(&mut self, slot: Option<Inst>) -> bool {
        match slot {
            None => false,
            Some(inst) => {
                self.expect(inst.first);
                self.expect(inst.second);
                true
            }
        }
    }

    // Each instruction that nothing feeds can be placed at once.
    fn begin_all(&mut self, insts: &[Option<Inst>]) {
        for s in 0..128u8 {
            if inst_at(insts, s).is_none() {
                return;
            }
            self.begin(s);
        }
    }

    // A token more is expected where a target leads.
    fn expect(&mut self, target: Option<Spot>) {
        if let Some(spot) = target {
            let s = fed(spot);
            if s < 128 {
                self.waiting[s as usize] = self.waiting[s as usize].saturating_add(1);
            }
        }
    }

    // The same of one slot.
    fn begin(&mut self, s: u8)
        requires { s < 128 }
    {
        if self.waiting[s as usize] == 0 {
            self.push(s);
        }
    }

    // A slot can be placed.
    fn push(&mut self, s: u8) {
        if self.found < 128 {
            self.queue[self.found] = s;
            self.found += 1;
        }
    }

    /// The slot that is placed as number `k`; none where no more can be placed.
    pub fn at(&self, k: usize) -> Option<u8> {
        if k < 128 && k < self.found {
            Some(self.queue[k])
        } else {
            None
        }
    }

    /// The instruction of a slot has been placed, so that what it feeds waits for one less.
    pub fn placed(&mut self, inst: Inst) {
        self.feed(inst.first);
        self.feed(inst.second);
    }

    // The same of one target.
    fn feed(&mut self, target: Option<Spot>) {
        if let Some(spot) = target {
            let s = fed(spot);
            if s < 128 {
                self.feed_slot(s);
            }
        }
    }

    // The same of the slot that it feeds.
    fn feed_slot(&mut self, s: u8)
        requires { s < 128 }
    {
        let left = self.waiting[s as usize].saturating_sub(1);
        self.waiting[s as usize] = left;
        if left == 0 {
            self.push(s);
        }
    }
}
