//! When instructions are expected to start on each tile.
ghost use Rattle.std.specs.Prelude.{◌<◌};

use crate::node::{CONTROL, Node, TILES, bank_node, data_ways, ways};
use trips_isa::{Form, Inst, Op, Spot, form_of, row_of};

/// What is expected of the tiles while instructions are placed. Times are cycles from the first read.
#[derive(Drop)]
pub struct Tiles {
    // when all that has been sent to a slot could be on a tile: slot s and tile t at 16 s + t
    ready: [u16; 2048],
    // when a tile can issue one instruction more
    free: [u16; 16],
    // how many slots of a tile have an instruction, 8 at most
    used: [u8; 16],
}

/// How long an operation takes.
pub fn latency(op: Op) -> u16 {
    u16::from(row_of(op).latency)
}

// Where what an instruction gives leaves the tiles: at the data tile beside its own, or for nodes.
#[derive(Clone, Copy, Debug)]
struct Outlets {
    data: bool,
    first: Option<Node>,
    second: Option<Node>,
}

// The bank of a write's register; none for any other target.
fn bank_of(target: Option<Spot>, writes: &[u8]) -> Option<Node> {
    match target {
        Some(Spot::Write(w)) => match writes.get(w as usize) {
            Some(register) => Some(bank_node(*register)),
            None => None,
        },
        _ => None,
    }
}

// Where what an instruction gives leaves the tiles.
fn outlets_of(inst: Inst, writes: &[u8]) -> Outlets {
    match form_of(inst.op) {
        Form::Load | Form::Store => Outlets {
            data: true,
            first: None,
            second: None,
        },
        Form::Branch => Outlets {
            data: false,
            first: Some(CONTROL),
            second: None,
        },
        _ => Outlets {
            data: false,
            first: bank_of(inst.first, writes),
            second: bank_of(inst.second, writes),
        },
    }
}

// The ways between each tile and a node, if there is one.
fn ways_to(to: Option<Node>) -> [u16; TILES] {
    match to {
        None => [0; TILES],
        Some(node) => ways(node),
    }
}

// The longer one of two times.
fn longer(a: u16, b: u16) -> u16 {
    if a < b { b } else { a }
}

// For each tile the longer way of what is given there to where it leaves the tiles.
fn ways_out(outlets: Outlets) -> [u16; TILES] {
    if outlets.data {
        return data_ways();
    }
    let mut found = ways_to(outlets.first);
    if let Some(node) = outlets.second {
        let second = ways(node);
        for t in 0..TILES {
            found[t] = longer(found[t], second[t]);
        }
    }
    found
}

impl Tiles {
    /// No instruction is placed, and nothing is sent.
    pub fn new() -> Tiles {
        Tiles {
            ready: [0; 2048],
            free: [0; 16],
            used: [0; 16],
        }
    }

    /// A token leaves a node at a time for a slot, on whatever tile that will be.
    pub fn send(&mut self, from: Node, time: u16, s: u8)
        requires { s < 128 }
    {
        let away = ways(from);
        let first = 16 * s as usize;
        for t in 0..TILES {
            let comes = time.saturating_add(away[t]);
            self.ready[first + t] = longer(self.ready[first + t], comes);
        }
    }

    // When the instruction of a slot would start on a tile.
    fn start(&self, s: u8, tile: u8) -> u16
        requires slot { s < 128 }
        requires tile { tile < 16 }
    {
        let ready = self.ready[16 * s as usize + tile as usize];
        let free = self.free[tile as usize];
        if ready < free { free } else { ready }
    }

    /// The tile on which an instruction is expected to be done first, the way of what leaves the tiles counted. No
    /// way makes it done before it starts, and on a full tile it is never done.
    pub fn best(&self, s: u8, inst: Inst, writes: &[u8]) -> u8
        requires { s < 128 }
        ensures { result < 16 }
    {
        let out = ways_out(outlets_of(inst, writes));
        let mut best = 0;
        let mut least = u16::MAX;
        for t in 0..16u8 {
            let start = self.start(s, t);
            if start < least && self.used[t as usize] < 8 {
                let done = start.saturating_add(out[t as usize]);
                if done < least {
                    best = t;
                    least = done;
                }
            }
        }
        best
    }

    /// The next place of a tile is taken; 128 where it has none.
    pub fn take(&mut self, tile: u8) -> u8
        requires { tile < 16 }
    {
        let k = self.used[tile as usize];
        if k < 8 {
            self.used[tile as usize] = k + 1;
            16 * k + tile
        } else {
            128
        }
    }

    /// The instruction of a slot is issued on a tile. Its unit is busy until the result is there, at the time that is
    /// told.
    pub fn issue(&mut self, s: u8, inst: Inst, tile: u8) -> u16
        requires slot { s < 128 }
        requires tile { tile < 16 }
    {
        let done = self.start(s, tile).saturating_add(latency(inst.op));
        self.free[tile as usize] = done;
        done
    }
}
