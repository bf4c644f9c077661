//! What each event is answered at a frame, and what a sealed frame hands out: rows of steps.
ghost use Rattle.frame_state.specs.inside.Phases.{HasBlock};

use crate::frame_making::{Step, act, asked, filled, one_block};
use block_check::CheckedImage;
use frame_state::{Cause, Happened, Phase, cause_in, outputs_in};
use std::process::Abort;
use std::test::Fail;
use trips_isa::{Stored, Token};

/// A step and its answer; what is done then happens.
type Row = (Step, Happened);

const DONE: Happened = Happened::Done;

const NO_FRAME: Happened = Happened::NotNow(Cause::NoFrame);

const NO_READ: Happened = Happened::NotNow(Cause::NoRead);

const NOT_YET: Happened = Happened::NotNow(Cause::NotYet);

const NO_INST: Happened = Happened::NotNow(Cause::NoInst);

const NOT_READY: Happened = Happened::NotNow(Cause::NotReady);

const NO_TOKEN: Happened = Happened::NotNow(Cause::NoToken);

const NO_REQUEST: Happened = Happened::NotNow(Cause::NoRequest);

const NO_EXIT: Happened = Happened::NotNow(Cause::NoExit);

const MISSING: Happened = Happened::NotNow(Cause::Missing);

/// To the end of the block: the load is answered before the store is resolved.
const TO_ITS_END: [Row; 32] = [
    (Step::Read(0, None), NOT_YET),
    (Step::Read(1, Some(7)), NO_READ),
    (Step::Read(0, Some(7)), DONE),
    (Step::Read(0, Some(7)), NO_READ),
    (Step::Fire(6), NO_INST),
    (Step::Fire(1), NOT_READY),
    (Step::Fire(0), DONE),
    (Step::Fire(0), NO_INST),
    (Step::Deliver(2), NO_TOKEN),
    (Step::Deliver(0), DONE),
    (Step::Deliver(0), NO_TOKEN),
    (Step::Load(1, 41), NO_REQUEST),
    (Step::Fire(1), DONE),
    (Step::Store(1), NO_REQUEST),
    (Step::Load(1, 41), DONE),
    (Step::Load(1, 41), NO_REQUEST),
    (Step::Deliver(2), DONE),
    (Step::Fire(3), DONE),
    (Step::Deliver(6), DONE),
    (Step::Exit, NO_EXIT),
    (Step::Fire(5), DONE),
    (Step::Exit, DONE),
    (Step::Exit, NO_EXIT),
    (Step::Seal, MISSING),
    (Step::Fire(4), DONE),
    (Step::Deliver(8), DONE),
    (Step::Deliver(256), DONE),
    (Step::Fire(2), DONE),
    (Step::Load(0, 0), NO_REQUEST),
    (Step::Store(0), DONE),
    (Step::Store(0), NO_REQUEST),
    (Step::Seal, DONE),
];

/// A sealed frame is asked in vain.
const SEALED: [Row; 7] = [
    (Step::Read(0, Some(7)), NO_FRAME),
    (Step::Fire(3), NO_FRAME),
    (Step::Deliver(0), NO_TOKEN),
    (Step::Load(1, 41), NO_FRAME),
    (Step::Store(0), NO_FRAME),
    (Step::Exit, NO_FRAME),
    (Step::Seal, NO_FRAME),
];

/// A step's answer; what is done then happens.
fn assert_row(rt: &impl Abort, phase: &mut Phase, image: &CheckedImage, row: Row)
    requires { HasBlock image.now.blocks phase.old }
    ensures { HasBlock image.now.blocks phase.new }
{
    let (step, want) = row;
    let happened = asked(phase, image, step);
    assert!(rt; happened == want, "{step:?}");
    if happened.is_done() {
        act(phase, image, step);
    }
}

/// Steps one after the other.
fn assert_rows(rt: &impl Abort, phase: &mut Phase, image: &CheckedImage, rows: &[Row])
    requires { HasBlock image.now.blocks phase.old }
    ensures { HasBlock image.now.blocks phase.new }
{
    for row in rows {
        assert_row(rt, phase, image, *row);
    }
}

/// What is handed out: register 9, and the store of register 5.
fn assert_outputs(rt: &impl Abort, phase: &Phase, image: &CheckedImage)
    requires { HasBlock image.now.blocks phase.now }
{
    let stored = Stored {
        number: 0,
        address: 64,
        size: 4,
        value: Some(7),
    };
    assert!(rt; cause_in(phase, image) == 0, "no mark");
    match outputs_in(phase, image) {
        None => panic!(rt; "the frame is sealed"),
        Some(outputs) => {
            assert!(rt;
                outputs.writes() == [Token::Word(42)].as_slice(),
                "the write"
            );
            assert!(rt; outputs.stores() == [stored].as_slice(), "the store");
            assert!(rt; outputs.successor() == 0, "the next block");
        }
    }
}

#[test]
fn answers_each_event(rt: HostRuntime) -> Result<(), Fail> {
    let image = one_block(rt.alloc())?;
    assert!(&rt; image.count() > 0, "one block");
    let mut phase = filled(rt.alloc(), &image)?;
    assert_rows(&rt, &mut phase, &image, &TO_ITS_END);
    assert_outputs(&rt, &phase, &image);
    assert_rows(&rt, &mut phase, &image, &SEALED);
    Ok(())
}
