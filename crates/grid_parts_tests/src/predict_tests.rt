//! What is predicted, and what a prediction changes: rows of questions.

use crate::making::{Ask, all, answer, three_blocks};
use block_check::CheckedImage;
use block_predict::{Predictor, entered};
use std::alloc::Global;
use std::process::Abort;
use std::test::Fail;

/// A question, its answer, and the history after it.
type Row = (Ask, Option<u32>, u16);

/// Exit 1 leads from block 1 to block 2. `peek` changes nothing.
const BY_EXIT_1: [Row; 2] = [(Ask::Peek(1), Some(2), 0), (Ask::Predict(1), Some(2), 1)];

/// Exit 3 leads from block 1 to block 0.
const BY_EXIT_3: [Row; 2] = [(Ask::Peek(1), Some(0), 0), (Ask::Predict(1), Some(0), 3)];

/// No branch of block 1 has the exit 7, so the lowest one stands in.
const BY_THE_LOWEST: [Row; 2] = [(Ask::Peek(1), Some(0), 0), (Ask::Predict(1), Some(0), 3)];

/// A call leaves the block behind it to a return, and an empty stack predicts nothing.
const CALLS: [Row; 6] = [
    (Ask::Repair(5), None, 5),
    (Ask::Predict(2), None, 5),
    (Ask::Predict(0), Some(2), 40),
    (Ask::Peek(2), Some(1), 40),
    (Ask::Predict(2), Some(1), 320),
    (Ask::Predict(2), None, 320),
];

/// An exit is learned under one history, and under no other.
const LEARNED: [Row; 4] = [
    (Ask::Learn(1, 1), None, 0),
    (Ask::Peek(1), Some(2), 0),
    (Ask::Repair(6), None, 6),
    (Ask::Peek(1), Some(0), 6),
];

/// Entry 1 of the seed 1 names exit 3. There is no block 3.
const BY_THE_SEED: [Row; 2] = [(Ask::Predict(1), Some(0), 3), (Ask::Predict(3), None, 3)];

/// The answer to a question, and the history after it.
fn assert_row(rt: &impl Abort, predictor: &mut Predictor, image: &CheckedImage, row: Row) {
    let (ask, want, history) = row;
    assert!(rt; answer(predictor, image, ask) == want, "{ask:?}");
    assert!(rt; predictor.history() == history, "the history after {ask:?}");
}

/// The answers to questions, one after the other.
fn assert_rows(rt: &impl Abort, predictor: &mut Predictor, image: &CheckedImage, rows: &[Row]) {
    for row in rows {
        assert_row(rt, predictor, image, *row);
    }
}

/// The same question, some times.
fn assert_again(
    rt: &impl Abort,
    predictor: &mut Predictor,
    image: &CheckedImage,
    ask: Ask,
    times: u8,
    want: u32,
) {
    for n in 0..times {
        assert!(rt; answer(predictor, image, ask) == Some(want), "{ask:?}, {n}");
    }
}

/// The answers of a predictor whose entries all name an exit.
fn assert_all(rt: &impl Abort, alloc: Global, exit: u8, rows: &[Row]) -> Result<(), Fail> {
    let image = three_blocks(alloc)?;
    let mut predictor = all(alloc, exit)?;
    assert_rows(rt, &mut predictor, &image, rows);
    Ok(())
}

#[test]
fn takes_the_named_exit(rt: HostRuntime) -> Result<(), Fail> {
    assert_all(&rt, rt.alloc(), 1, &BY_EXIT_1)?;
    assert_all(&rt, rt.alloc(), 3, &BY_EXIT_3)
}

#[test]
fn takes_the_lowest_branch(rt: HostRuntime) -> Result<(), Fail> {
    assert_all(&rt, rt.alloc(), 7, &BY_THE_LOWEST)
}

#[test]
fn returns_to_the_block_behind_the_call(rt: HostRuntime) -> Result<(), Fail> {
    assert_all(&rt, rt.alloc(), 0, &CALLS)
}

#[test]
fn learns_an_exit(rt: HostRuntime) -> Result<(), Fail> {
    assert_all(&rt, rt.alloc(), 3, &LEARNED)
}

/// Of seventeen calls the oldest is dropped.
#[test]
fn keeps_sixteen_calls(rt: HostRuntime) -> Result<(), Fail> {
    let image = three_blocks(rt.alloc())?;
    let mut predictor = all(rt.alloc(), 0)?;
    assert_again(&rt, &mut predictor, &image, Ask::Predict(0), 17, 2);
    assert_again(&rt, &mut predictor, &image, Ask::Predict(2), 16, 1);
    assert!(&rt;
        answer(&mut predictor, &image, Ask::Predict(2)).is_none(),
        "the seventeenth return"
    );
    Ok(())
}

#[test]
fn predicts_by_the_seed(rt: HostRuntime) -> Result<(), Fail> {
    let image = three_blocks(rt.alloc())?;
    let mut predictor = Predictor::make(rt.alloc(), 1).expect(&rt, "memory");
    assert_rows(&rt, &mut predictor, &image, &BY_THE_SEED);
    Ok(())
}

/// The history is the last exits, three bits each, of which ten bits are kept.
#[test]
fn enters_exits_into_the_history(rt: HostRuntime) {
    for (history, exit, after) in [(0, 7, 7), (7, 0, 56), (1023, 5, 1021), (128, 1, 1)] {
        assert!(&rt; entered(history, exit) == after, "{history} {exit}");
    }
}
