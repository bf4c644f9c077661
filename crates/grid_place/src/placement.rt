//! A placement by which tokens go short ways.
//!
//! Instructions are placed in an order in which each comes behind those that feed it, on the tile on which it is
//! expected to be done first. How good these guesses are is measured, not proved: what is proved is that each slot
//! has one place.
ghost use Rattle.std.specs.Prelude.{◌≡◌, ◌<◌, length};
ghost use Rattle.grid_place.specs.Moves.{IsPermutation};

use crate::node::{Node, bank_node, data_node, tile_node, way};
use crate::order::{Order, fed, inst_at};
use crate::shuffle;
use crate::tiles::Tiles;
use trips_isa::{Block, Form, Inst, ReadSlot, Spot, form_of};

/// What is known while the instructions of a block are placed.
#[derive(Drop)]
struct Board {
    order: Order,
    tiles: Tiles,
    // the slot that stands in each place of the grid
    standing: [u8; 128],
    // how many reads each bank has been asked
    asked: [u16; 4],
}

impl Board {
    // What is read is on its way.
    fn read_all(&mut self, reads: &[ReadSlot]) {
        for read in reads {
            self.read(*read);
        }
    }

    // A bank answers one read in a cycle.
    fn read(&mut self, read: ReadSlot) {
        let bank = (read.register % 4) as usize;
        let time = self.asked[bank];
        self.asked[bank] = time.saturating_add(1);
        self.send(bank_node(read.register), time, read.first);
        self.send_if(bank_node(read.register), time, read.second);
    }

    // A token leaves a node at a time for a target.
    fn send(&mut self, from: Node, time: u16, target: Spot) {
        let s = fed(target);
        if s < 128 {
            self.tiles.send(from, time, s);
        }
    }

    // The same where there is a target.
    fn send_if(&mut self, from: Node, time: u16, target: Option<Spot>) {
        if let Some(spot) = target {
            self.send(from, time, spot);
        }
    }

    // What an instruction gives on a tile at a time is on its way; what it loads comes from a data tile.
    fn give(&mut self, inst: Inst, tile: u8, time: u16) {
        let from = tile_node(tile);
        if form_of(inst.op) == Form::Load {
            let data = data_node(tile);
            let loaded = time.saturating_add(way(from, data));
            self.send_if(data, loaded, inst.first);
        } else {
            self.send_if(from, time, inst.first);
            self.send_if(from, time, inst.second);
        }
    }

    // A slot goes to a place, and what stood there to where the slot stood.
    fn swap(&mut self, to: &mut [u8], s: u8, place: u8)
        requires permutes { IsPermutation to.old }
        requires slot { s < 128 }
        requires place { place < 128 }
        ensures { IsPermutation to.new }
    {
        let left = to[s as usize];
        let other = self.standing[place as usize] % 128;
        to.swap(s as usize, other as usize);
        self.standing[place as usize] = s;
        self.standing[(left % 128) as usize] = other;
    }

    // The instruction of a slot is placed.
    fn place(&mut self, to: &mut [u8], s: u8, inst: Inst, writes: &[u8])
        requires permutes { IsPermutation to.old }
        requires slot { s < 128 }
        ensures { IsPermutation to.new }
    {
        let tile = self.tiles.best(s, inst, writes);
        let place = self.tiles.take(tile);
        let time = self.tiles.issue(s, inst, tile);
        self.give(inst, tile, time);
        self.order.placed(inst);
        if place < 128 {
            self.swap(to, s, place);
        }
    }

    // The slot that is the next to be placed is placed; whether there is one.
    fn turn(&mut self, to: &mut [u8], k: usize, block: &Block) -> bool
        requires { IsPermutation to.old }
        ensures { IsPermutation to.new }
    {
        match self.order.at(k) {
            None => false,
            Some(s) => {
                if s < 128
                    && let Some(inst) = inst_at(block.insts.as_slice(), s)
                {
                    self.place(to, s, inst, block.writes.as_slice());
                }
                true
            }
        }
    }
}

/// Where each slot of a block goes by the greedy placement.
pub fn greedy(to: &mut [u8], block: &Block)
    requires { length to.old ≡ 128 }
    ensures { IsPermutation to.new }
{
    shuffle::in_place(to);
    // no instruction is placed
    let mut board = Board {
        order: Order::of(block.insts.as_slice()),
        tiles: Tiles::new(),
        standing: [0; 128],
        asked: [0; 4],
    };
    shuffle::in_place(&mut board.standing);
    board.read_all(block.reads.as_slice());
    for k in 0..128usize {
        if !board.turn(to, k, block) {
            return;
        }
    }
}
