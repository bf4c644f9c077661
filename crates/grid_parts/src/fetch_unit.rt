//! The fetch unit.
ghost use Rattle.std.specs.Prelude.{◌≡◌, ◌<◌, None, Some, is_none};
ghost use Rattle.grid_cycle_spec.specs.Grid.{Fetching};
ghost use Rattle.grid_cycle_spec.specs.Acting as acting;
ghost use Rattle.grid_parts.specs.Fetches.{under_way};
ghost use Rattle.grid_parts.specs.inside.Fetches.{due, nearer};

use std::marker::Model;

/// What the fetch unit does, seen as the fetch that is under way, if there is one.
#[derive(Debug, Drop)]
pub struct FetchUnit {
    busy: bool,
    left: u8,
    block: u32,
    history: u16,
    careful: bool,
}

impl Model for FetchUnit {
    ghost use Rattle.std.specs.Prelude.{◌<◌, Option};
    ghost use Rattle.grid_cycle_spec.specs.Grid.{Fetching};
    ghost use Rattle.grid_parts.specs.Fetches.{fetch_by};

    ghost Value = { Option Fetching };

    ghost view = { λ u. fetch_by u.busy u.left u.block u.history u.careful };

    ghost invariant = { λ u. u.history < 1024 };
}

impl FetchUnit {
    /// Nothing is fetched.
    pub fn idle() -> FetchUnit
        ensures { result ≡ None }
    {
        FetchUnit {
            busy: false,
            left: 0,
            block: 0,
            history: 0,
            careful: false,
        }
    }

    /// Whether nothing is fetched.
    pub fn is_idle(&self) -> bool
        ensures { result ≡ is_none self.now }
    {
        !self.busy
    }

    /// The block whose fetch makes its event in this cycle.
    pub fn due(&self) -> Option<u32>
        ensures { result ≡ due self.now }
    {
        if self.busy {
            if self.left == 0 {
                Some(self.block)
            } else {
                None
            }
        } else {
            None
        }
    }

    /// The block that is fetched.
    pub fn block(&self) -> Option<u32>
        ensures some { (f : Fetching) → self.now ≡ Some f → result ≡ Some f.block }
        ensures none { self.now ≡ None → result ≡ None }
    {
        if self.busy { Some(self.block) } else { None }
    }

    /// The history that stands when the fetch has begun.
    pub fn history(&self) -> u16
        ensures value { (f : Fetching) → self.now ≡ Some f → result ≡ f.history }
        ensures within { result < 1024 }
    {
        self.history
    }

    /// Whether the fetch makes a careful frame.
    pub fn is_careful(&self) -> bool
        ensures { (f : Fetching) → self.now ≡ Some f → result ≡ f.careful }
    {
        self.careful
    }

    /// The fetch takes a cycle less.
    pub fn go_on(&mut self)
        ensures { self.new ≡ nearer self.old }
    {
        if self.left > 0 {
            self.left -= 1;
        }
    }

    /// The fetch of a block begins.
    pub fn begin(&mut self, block: u32, history: u16, careful: bool)
        requires { history < 1024 }
        ensures { self.new ≡ under_way 7 block history careful }
    {
        self.busy = true;
        self.left = 7;
        self.block = block;
        self.history = history;
        self.careful = careful;
    }

    /// The fetch ends, or is given up.
    pub fn clear(&mut self)
        ensures { self.new ≡ None }
    {
        self.busy = false;
    }

    /// The fetch of another block than the known next one is given up.
    pub fn settle(&mut self, known: Option<u32>)
        ensures { self.new ≡ acting.still known self.old }
    {
        match known {
            Some(block) => {
                if block != self.block {
                    self.busy = false;
                }
            }
            None => {}
        }
    }
}
