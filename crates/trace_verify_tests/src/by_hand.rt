//! Traces by hand, byte by byte, each with the fault that comes where its lowest bit is turned.

use std::alloc::{AllocError, Global};
use trace_verify::VerifyFault;
use trips_isa::Spot;

/// A byte of a trace, the fault where its lowest bit is turned, and the place of the byte with which that is told.
#[derive(Clone, Copy)]
pub struct Byte {
    pub value: u8,
    pub fault: VerifyFault,
    pub told: usize,
}

/// What a record says.
#[derive(Clone, Copy)]
enum Record {
    /// the instruction does not fire
    Absent,
    /// it gives null, or it is a store or a branch and fires
    Fires,
    /// it gives a word below 256, behind this first byte
    Word(u8, u8),
}

use Record::{Absent, Fires, Word};

// The bytes from a place on are judged with the last one.
fn judge(trace: &mut Vec<Byte>, from: usize) {
    let last = trace.len().saturating_sub(1);
    for place in from..trace.len() {
        if let Some(byte) = trace.get_mut(place) {
            byte.told = last;
        }
    }
}

// Writes bytes that are judged with the last of them.
fn put(trace: &mut Vec<Byte>, values: &[u8], fault: VerifyFault) -> Result<(), AllocError> {
    let from = trace.len();
    for value in values {
        trace.push(Byte {
            value: *value,
            fault,
            told: 0,
        })?;
    }
    judge(trace, from);
    Ok(())
}

fn put_record(trace: &mut Vec<Byte>, record: Record, fault: VerifyFault) -> Result<(), AllocError> {
    match record {
        Absent => put(trace, &[0], fault),
        Fires => put(trace, &[1], fault),
        Word(first, low) => {
            // with its lowest bit turned it begins no record
            put(trace, &[first], fault)?;
            put(trace, &[0, 0, 0, 0, 0, 0, 0, low], fault)
        }
    }
}

// Writes an entry of block 0.
fn put_entry(
    trace: &mut Vec<Byte>,
    entry: u32,
    exit: u8,
    records: &[Record],
) -> Result<(), AllocError> {
    put(trace, &[0, 0, 0, 0], VerifyFault::WrongBlock(entry))?;
    let from = trace.len();
    put(trace, &[exit], VerifyFault::WrongExit(entry))?;
    let mut slot = 0u8;
    for record in records {
        let fault = VerifyFault::WrongToken(entry, Spot::Inst(slot));
        put_record(trace, *record, fault)?;
        slot = slot.wrapping_add(1);
    }
    // the exit is judged behind the records
    let last = trace.len().saturating_sub(1);
    if let Some(byte) = trace.get_mut(from) {
        byte.told = last;
    }
    Ok(())
}

/// What a trace begins with.
pub fn front(alloc: Global) -> Result<Vec<Byte>, AllocError> {
    let mut trace = Vec::new(alloc);
    put(&mut trace, b"TRIPSTRC", VerifyFault::Magic)?;
    put(&mut trace, &[0, 0, 0, 1], VerifyFault::Version)?;
    Ok(trace)
}

/// Writes the end word, and says what comes where an entry stands in its place.
pub fn put_end(trace: &mut Vec<Byte>, fault: VerifyFault) -> Result<(), AllocError> {
    put(trace, &[255; 4], fault)
}

/// The image of which the traces with marks are: a count goes up, and its lowest bit chooses between two exits, and
/// between the store of a word and of a null. Where the bit is 0 a division by it has a mark, which no output gets.
pub const MARKED: &str = "trips 1
data 0
block 0 mask 00000001
R[0] read G[5] N[0,0] N[1,0]
W[0] write G[5]
N[0] addi 1 W[0]
N[1] andi 1 N[2,0]
N[2] mov N[3,0] N[4,0]
N[3] mov N[5,p] N[6,p]
N[4] mov N[7,0] N[9,1]
N[5] bro_t 0 @0
N[6] bro_f 1 @0
N[7] mov N[11,p] N[12,p]
N[8] genu 9 N[9,0]
N[9] divu N[11,0]
N[10] genu 8 N[13,0]
N[11] mov_t N[13,1]
N[12] null_f N[13,1]
N[13] sb 0 0
";

/// Writes the entry of a step of it, by its number.
pub fn put_marked(trace: &mut Vec<Byte>, entry: u8) -> Result<(), AllocError> {
    let next = Word(2, entry.wrapping_add(1));
    let (nine, eight) = (Word(2, 9), Word(2, 8));
    if entry % 2 == 1 {
        let bit = Word(2, 1);
        let records = [
            next, bit, bit, bit, bit, Fires, Absent, bit, nine, nine, eight, nine, Absent, Fires,
        ];
        put_entry(trace, entry as u32, 0, &records)
    } else {
        let (bit, marked) = (Word(2, 0), Word(6, 0));
        let records = [
            next, bit, bit, bit, bit, Absent, Fires, bit, nine, marked, eight, Absent, Fires, Fires,
        ];
        put_entry(trace, entry as u32, 1, &records)
    }
}

/// Writes the entry of a step, by its number, that divides 9 by a count which is 0 at the number `zero`.
pub fn put_quotient(trace: &mut Vec<Byte>, entry: u8, zero: u8) -> Result<(), AllocError> {
    let count = entry ^ zero;
    let quotient = if count == 0 {
        Word(6, 0)
    } else {
        Word(2, 9 / count)
    };
    let records = [
        Word(2, entry.wrapping_add(1)),
        Word(2, count),
        Word(2, 9),
        quotient,
        Fires,
    ];
    put_entry(trace, entry as u32, 0, &records)
}

/// Writes the entry of the run that writes 3 and 7 and ends.
pub fn put_row(trace: &mut Vec<Byte>) -> Result<(), AllocError> {
    put_entry(trace, 0, 0, &[Word(2, 3), Word(2, 7), Fires])
}

/// The bytes alone.
pub fn values(alloc: Global, trace: &[Byte]) -> Result<Vec<u8>, AllocError> {
    let mut bytes = Vec::new(alloc);
    for byte in trace {
        bytes.push(byte.value)?;
    }
    Ok(bytes)
}
