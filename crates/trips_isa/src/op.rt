//! The operations, and their table.
ghost use Rattle.std.specs.Prelude.{◌≡◌, ◌<◌, length, get_or, map};
ghost use Rattle.trips_isa.specs.OperationTable.{row_of};
ghost use Rattle.trips_isa.specs.inside.OperationTable.{values, row_values, no_values};

use crate::Form;

/// An operation, one variant a mnemonic (docs/MACHINE.md, "Operations").
#[derive(Clone, Copy, Debug, PartialEq, Eq)]
pub enum Op {
    Add,
    Sub,
    Mul,
    Divs,
    Divu,
    And,
    Or,
    Xor,
    Sll,
    Srl,
    Sra,
    Extsb,
    Extsh,
    Extsw,
    Extub,
    Extuh,
    Extuw,
    Teq,
    Tne,
    Tlt,
    Tle,
    Tgt,
    Tge,
    Tltu,
    Tleu,
    Tgtu,
    Tgeu,
    Mov,
    Null,
    Addi,
    Subi,
    Muli,
    Andi,
    Ori,
    Xori,
    Slli,
    Srli,
    Srai,
    Teqi,
    Tnei,
    Tlti,
    Tlei,
    Tgti,
    Tgei,
    Tltui,
    Tleui,
    Tgtui,
    Tgeui,
    Lb,
    Lbs,
    Lh,
    Lhs,
    Lw,
    Lws,
    Ld,
    Sb,
    Sh,
    Sw,
    Sd,
    Bro,
    Callo,
    Br,
    Ret,
    Scall,
    Genu,
    Gens,
    App,
}

/// What the table has of an operation.
#[derive(Clone, Copy)]
pub struct Row {
    /// in ASCII, another for each operation
    pub mnemonic: &'static [u8],
    /// the form of its word
    pub form: Form,
    /// with the extended opcode another for each operation
    pub opcode: u32,
    /// tells operations of one opcode apart, and is 0 where an opcode has one operation
    pub extended: u32,
    /// the cycles from its issue to its result
    pub latency: u8,
}

// A row as the table has it: mnemonic, form, opcode, extended opcode, latency.
type Columns = (&'static [u8], Form, u32, u32, u8);

/// The table, one row for each operation, in the order of `Op`: mnemonic, form, opcode, extended opcode, latency.
pub const OPERATIONS: [(&[u8], Form, u32, u32, u8); 67] = [
    (b"add", Form::General, 1, 0, 1),
    (b"sub", Form::General, 1, 1, 1),
    (b"mul", Form::General, 1, 2, 3),
    (b"divs", Form::General, 1, 3, 24),
    (b"divu", Form::General, 1, 4, 24),
    (b"and", Form::General, 1, 5, 1),
    (b"or", Form::General, 1, 6, 1),
    (b"xor", Form::General, 1, 7, 1),
    (b"sll", Form::General, 1, 8, 1),
    (b"srl", Form::General, 1, 9, 1),
    (b"sra", Form::General, 1, 10, 1),
    (b"extsb", Form::General, 1, 11, 1),
    (b"extsh", Form::General, 1, 12, 1),
    (b"extsw", Form::General, 1, 13, 1),
    (b"extub", Form::General, 1, 14, 1),
    (b"extuh", Form::General, 1, 15, 1),
    (b"extuw", Form::General, 1, 16, 1),
    (b"teq", Form::General, 1, 17, 1),
    (b"tne", Form::General, 1, 18, 1),
    (b"tlt", Form::General, 1, 19, 1),
    (b"tle", Form::General, 1, 20, 1),
    (b"tgt", Form::General, 1, 21, 1),
    (b"tge", Form::General, 1, 22, 1),
    (b"tltu", Form::General, 1, 23, 1),
    (b"tleu", Form::General, 1, 24, 1),
    (b"tgtu", Form::General, 1, 25, 1),
    (b"tgeu", Form::General, 1, 26, 1),
    (b"mov", Form::General, 1, 27, 1),
    (b"null", Form::General, 1, 28, 1),
    (b"addi", Form::Immediate, 2, 0, 1),
    (b"subi", Form::Immediate, 2, 1, 1),
    (b"muli", Form::Immediate, 2, 2, 3),
    (b"andi", Form::Immediate, 2, 5, 1),
    (b"ori", Form::Immediate, 2, 6, 1),
    (b"xori", Form::Immediate, 2, 7, 1),
    (b"slli", Form::Immediate, 2, 8, 1),
    (b"srli", Form::Immediate, 2, 9, 1),
    (b"srai", Form::Immediate, 2, 10, 1),
    (b"teqi", Form::Immediate, 2, 17, 1),
    (b"tnei", Form::Immediate, 2, 18, 1),
    (b"tlti", Form::Immediate, 2, 19, 1),
    (b"tlei", Form::Immediate, 2, 20, 1),
    (b"tgti", Form::Immediate, 2, 21, 1),
    (b"tgei", Form::Immediate, 2, 22, 1),
    (b"tltui", Form::Immediate, 2, 23, 1),
    (b"tleui", Form::Immediate, 2, 24, 1),
    (b"tgtui", Form::Immediate, 2, 25, 1),
    (b"tgeui", Form::Immediate, 2, 26, 1),
    (b"lb", Form::Load, 16, 0, 1),
    (b"lbs", Form::Load, 17, 0, 1),
    (b"lh", Form::Load, 18, 0, 1),
    (b"lhs", Form::Load, 19, 0, 1),
    (b"lw", Form::Load, 20, 0, 1),
    (b"lws", Form::Load, 21, 0, 1),
    (b"ld", Form::Load, 22, 0, 1),
    (b"sb", Form::Store, 24, 0, 1),
    (b"sh", Form::Store, 25, 0, 1),
    (b"sw", Form::Store, 26, 0, 1),
    (b"sd", Form::Store, 27, 0, 1),
    (b"bro", Form::Branch, 32, 0, 1),
    (b"callo", Form::Branch, 33, 0, 1),
    (b"br", Form::Branch, 34, 0, 1),
    (b"ret", Form::Branch, 35, 0, 1),
    (b"scall", Form::Branch, 36, 0, 1),
    (b"genu", Form::Constant, 48, 0, 1),
    (b"gens", Form::Constant, 49, 0, 1),
    (b"app", Form::Constant, 50, 0, 1),
];

#[tactic(auto, using(crate::proofs::Rows::values_at))]
fn columns(rows: &[Columns], at: usize) -> Columns
    requires { at < length rows.now }
    ensures { values result ≡ get_or (map values rows.now) at no_values }
{
    rows[at]
}

fn columns_of(op: Op) -> Columns
    ensures { values result ≡ row_values (row_of op) }
{
    columns(&OPERATIONS, op as usize)
}

/// The row of an operation.
pub fn row_of(op: Op) -> Row
    ensures mnemonic { result.mnemonic.now ≡ (row_of op).mnemonic }
    ensures form { result.form ≡ (row_of op).form }
    ensures opcode { result.opcode ≡ (row_of op).opcode }
    ensures extended { result.extended ≡ (row_of op).extended }
    ensures latency { result.latency ≡ (row_of op).latency }
{
    let row = columns_of(op);
    Row {
        mnemonic: row.0,
        form: row.1,
        opcode: row.2,
        extended: row.3,
        latency: row.4,
    }
}
