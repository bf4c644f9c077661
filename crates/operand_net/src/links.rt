//! The links that the parcels of a tick have taken.
ghost use Rattle.std.specs.Prelude.{◌≡◌, ◌<◌, ◌+◌, ◌*◌, ◌||◌, ◌==◌, not, ℕ, false};
ghost use Rattle.operand_net.specs.inside.Rows.{taken};

/// For each of the 25 nodes a bit for each node that it has a link to: 1 where the link is taken.
#[derive(Debug, Drop)]
pub struct Links {
    pub nodes: [u32; 25],
}

impl Links {
    /// No link is taken.
    pub fn none() -> Links
        ensures { (l : ℕ) → taken result.nodes l ≡ false }
    {
        Links { nodes: [0; 25] }
    }

    /// Takes the link from one node to another, and says whether it was free.
    pub fn take(&mut self, from: u8, to: u8) -> bool
        requires from { from < 25 }
        requires to { to < 25 }
        ensures free { result ≡ not (taken self.old.nodes (from * 25 + to)) }
        ensures marks { (l : ℕ) → taken self.new.nodes l ≡ (taken self.old.nodes l || from * 25 + to == l) }
    {
        let node = self.nodes[from as usize];
        self.nodes[from as usize] = node | (1 << to);
        (node >> to) & 1 == 0
    }
}
