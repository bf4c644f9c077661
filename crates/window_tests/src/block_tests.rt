//! A frame of a small block, from its fill to its outputs.

use arrayvec::ArrayVec;
use frame_state::{Departure, Empty, Running, Shape};
use std::process::Abort;
use trips_isa::{Block, Inst, Op, Sense, Spot, Token};

fn inst(op: Op, imm: i32, first: Option<Spot>) -> Option<Inst> {
    Some(Inst {
        op,
        sense: Sense::Always,
        imm,
        number: 0,
        first,
        second: None,
    })
}

/// Two constants, their sum to a write, and a branch.
fn block() -> Block {
    let mut insts = ArrayVec::new();
    insts.push(inst(Op::Genu, 5, Some(Spot::Left(2))));
    insts.push(inst(Op::Genu, 7, Some(Spot::Right(2))));
    insts.push(inst(Op::Add, 0, Some(Spot::Write(0))));
    insts.push(inst(Op::Bro, 0, None));
    let mut writes = ArrayVec::new();
    writes.push(9);
    Block {
        reads: ArrayVec::new(),
        writes,
        mask: 0,
        insts,
    }
}

// Delivers the token in a place, which finds room.
fn assert_delivers(rt: &impl Abort, running: &mut Running, block: &Block, place: u16) {
    assert!(rt;
        running.held().finds_room(block, place),
        "place {place}: an empty place of the block"
    );
    running.deliver(block, place);
}

#[test]
fn runs_a_block(rt: HostRuntime) {
    let block = block();
    let shape = Shape::make(&block);
    let empty = Empty::make(rt.alloc(), 3).expect(&rt, "memory");
    let mut running = empty.fill(6);
    assert!(&rt;
        running.held().ready(&shape, 0) == 11,
        "two constants and the branch"
    );
    running.fire(&block, 0);
    running.fire(&block, 1);
    assert!(&rt;
        running.held().has_token(0) && running.held().has_token(2),
        "both are on their way"
    );
    assert!(&rt;
        running.held().token_at(&block, 2).is_none(),
        "no operand has come"
    );
    assert_delivers(&rt, &mut running, &block, 0);
    assert_delivers(&rt, &mut running, &block, 2);
    assert!(&rt;
        !running.held().finds_room(&block, 0),
        "the left operand of the sum has come"
    );
    assert!(&rt;
        running.held().ready(&shape, 0) == 12,
        "the sum and the branch"
    );
    running.fire(&block, 2);
    assert_delivers(&rt, &mut running, &block, 4);
    assert!(&rt; running.held().write(0) == Some(Token::Word(12)), "the sum");
    running.fire(&block, 3);
    assert!(&rt; running.held().branch(&block).is_some(), "the branch waits");
    assert!(&rt; !running.held().is_complete(&block), "no exit has come");
    running.leave(
        &block,
        Some(Departure {
            exit: 0,
            system: false,
            successor: 6,
        }),
    );
    match running.seal(&block) {
        Ok(sealed) => {
            let outputs = sealed.outputs(&block);
            assert!(&rt;
                outputs.writes() == [Token::Word(12)].as_slice(),
                "one write"
            );
            assert!(&rt; sealed.cause(&block) == 0, "no mark");
            let empty = sealed.flush();
            assert!(&rt; empty.generation() == 1, "filled once");
        }
        Err(running) => {
            let _empty = running.flush();
            panic!(&rt; "the frame lacks an output");
        }
    }
}
