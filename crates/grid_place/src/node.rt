//! The nodes of the mesh, and the ways between them.
ghost use Rattle.std.specs.Prelude.{◌≤◌};

/// A node of the 5 by 5 mesh, by its row and its column. Control stands at row 0 and column 0.
#[derive(Clone, Copy, Debug, PartialEq, Eq)]
pub struct Node {
    pub row: u8,
    pub column: u8,
}

/// The node to which branches go.
pub const CONTROL: Node = Node { row: 0, column: 0 };

/// The node of an execution tile, 0 to 15.
pub fn tile_node(tile: u8) -> Node {
    Node {
        row: 1 + tile / 4,
        column: 1 + tile % 4,
    }
}

/// The node of the bank in which a register is.
pub fn bank_node(register: u8) -> Node {
    Node {
        row: 0,
        column: 1 + register % 4,
    }
}

/// The node of the data tile beside an execution tile. Which one serves an address is not known before it runs.
pub fn data_node(tile: u8) -> Node {
    Node {
        row: 1 + tile / 4,
        column: 0,
    }
}

/// How far two numbers are apart.
pub fn apart(a: u8, b: u8) -> u16
    ensures { result ≤ 255 }
{
    if a < b {
        (b - a) as u16
    } else {
        (a - b) as u16
    }
}

/// The cycles that a parcel is expected to take between two nodes: one for each link, and one beside these.
pub fn way(from: Node, to: Node) -> u16 {
    1 + apart(from.row, to.row) + apart(from.column, to.column)
}

/// How many execution tiles there are.
pub const TILES: usize = 16;

// How many rows each tile is from a row of the mesh.
const ROWS: [[u16; TILES]; 5] = [
    [1, 1, 1, 1, 2, 2, 2, 2, 3, 3, 3, 3, 4, 4, 4, 4],
    [0, 0, 0, 0, 1, 1, 1, 1, 2, 2, 2, 2, 3, 3, 3, 3],
    [1, 1, 1, 1, 0, 0, 0, 0, 1, 1, 1, 1, 2, 2, 2, 2],
    [2, 2, 2, 2, 1, 1, 1, 1, 0, 0, 0, 0, 1, 1, 1, 1],
    [3, 3, 3, 3, 2, 2, 2, 2, 1, 1, 1, 1, 0, 0, 0, 0],
];

// How many columns each tile is from a column of the mesh.
const COLUMNS: [[u16; TILES]; 5] = [
    [1, 2, 3, 4, 1, 2, 3, 4, 1, 2, 3, 4, 1, 2, 3, 4],
    [0, 1, 2, 3, 0, 1, 2, 3, 0, 1, 2, 3, 0, 1, 2, 3],
    [1, 0, 1, 2, 1, 0, 1, 2, 1, 0, 1, 2, 1, 0, 1, 2],
    [2, 1, 0, 1, 2, 1, 0, 1, 2, 1, 0, 1, 2, 1, 0, 1],
    [3, 2, 1, 0, 3, 2, 1, 0, 3, 2, 1, 0, 3, 2, 1, 0],
];

/// The ways between a node and each tile.
pub fn ways(node: Node) -> [u16; TILES] {
    let rows = ROWS[(node.row % 5) as usize];
    let columns = COLUMNS[(node.column % 5) as usize];
    let mut found = [1u16; TILES];
    for t in 0..TILES {
        found[t] = rows[t].saturating_add(columns[t]).saturating_add(1);
    }
    found
}

/// The ways between each tile and the data tile beside it.
pub fn data_ways() -> [u16; TILES] {
    let columns = COLUMNS[0];
    let mut found = [1u16; TILES];
    for t in 0..TILES {
        found[t] = columns[t].saturating_add(1);
    }
    found
}
