//! An image of one block, a frame that is filled with it, and steps of that frame.

ghost use Rattle.std.specs.Prelude.{◌≡◌, ◌<◌, length, IfOk};
ghost use Rattle.trips_isa.specs.Images.{FitsImage};
ghost use Rattle.frame_state.specs.inside.Phases.{HasBlock};

use block_check::{CheckedImage, ImageRefusal};
use frame_state::{
    Empty, Happened, Phase, can_deliver, can_exit, can_fire, can_load, can_read, can_seal,
    can_store, deliver_in, exit_in, fill_in, finds_room, fire_in, load_in, read_in, read_register,
    seal_in, store_in,
};
use std::alloc::{AllocError, Global};
use std::test::Fail;
use target_asm::assemble;
use trips_isa::Image;

/// Register 5 is stored at address 64. What is loaded from there is behind that store: one more goes to register 9.
const TEXT: &str = "trips 1
data 0
block 0 mask 00000001
R[0] read G[5] N[2,1]
W[0] write G[9]
N[0] genu 64 N[1,0]
N[1] lw 1 0 N[3,0]
N[2] sw 0 0
N[3] addi 1 W[0]
N[4] genu 64 N[2,0]
N[5] bro 0 @0
";

fn image(alloc: Global) -> Result<Image, Fail>
    ensures { IfOk result FitsImage }
{
    match assemble(alloc, TEXT.as_bytes()) {
        Ok(image) => Ok(image),
        Err(fault) => Err(Fail::from(fault)),
    }
}

/// The image, checked.
pub fn one_block(alloc: Global) -> Result<CheckedImage, Fail> {
    let image = image(alloc)?;
    match CheckedImage::make(alloc, image) {
        Ok(checked) => Ok(checked),
        Err(ImageRefusal::Bad(_, fault)) => Err(Fail::from(fault)),
        Err(ImageRefusal::Memory) => Err(Fail::from(AllocError)),
    }
}

/// Frame 3, filled with block 0.
pub fn filled(alloc: Global, image: &CheckedImage) -> Result<Phase, Fail>
    requires { 0 < length image.now.blocks }
    ensures { IfOk result (HasBlock image.now.blocks) }
{
    match Empty::make(alloc, 3) {
        Ok(empty) => {
            let mut phase = Phase::Free(empty);
            fill_in(&mut phase, 0);
            Ok(phase)
        }
        Err(error) => Err(Fail::from(error)),
    }
}

/// An event of one frame, with what the frame sees: the word of a register where it is known, the number that the
/// bytes of a load make.
#[derive(Clone, Copy, Debug)]
pub enum Step {
    Read(u8, Option<u64>),
    Fire(u8),
    Deliver(u16),
    Load(u8, u64),
    Store(u8),
    Exit,
    Seal,
}

/// What a step is answered.
pub fn asked(phase: &Phase, image: &CheckedImage, step: Step) -> Happened
    requires { HasBlock image.now.blocks phase.now }
{
    match step {
        Step::Read(read, word) => can_read(phase, image, read, word),
        Step::Fire(slot) => can_fire(phase, image, slot),
        Step::Deliver(place) => can_deliver(phase, image, place),
        Step::Load(number, _) => can_load(phase, image, number),
        Step::Store(number) => can_store(phase, image, number),
        Step::Exit => can_exit(phase, image),
        Step::Seal => can_seal(phase, image),
    }
}

// Answers a read that is declared, where its word is known.
#[tactic(auto, using(frame_state::proofs::PhaseFacts::declares))]
fn read(phase: &mut Phase, image: &CheckedImage, read: u8, word: Option<u64>)
    requires { HasBlock image.now.blocks phase.old }
    ensures { HasBlock image.now.blocks phase.new }
{
    let register = read_register(phase, image, read);
    if let Some(_) = register
        && let Some(word) = word
    {
        read_in(phase, image, read, word);
    }
}

// Delivers a token that finds room.
fn deliver(phase: &mut Phase, image: &CheckedImage, place: u16)
    requires { HasBlock image.now.blocks phase.old }
    ensures { HasBlock image.now.blocks phase.new }
{
    if finds_room(phase, image, place) {
        deliver_in(phase, image, place);
    }
}

/// What a step does.
pub fn act(phase: &mut Phase, image: &CheckedImage, step: Step)
    requires { HasBlock image.now.blocks phase.old }
    ensures { HasBlock image.now.blocks phase.new }
{
    match step {
        Step::Read(number, word) => read(phase, image, number, word),
        Step::Fire(slot) => fire_in(phase, image, slot),
        Step::Deliver(place) => deliver(phase, image, place),
        Step::Load(number, bytes) => load_in(phase, image, number, bytes),
        Step::Store(number) => store_in(phase, image, number),
        Step::Exit => exit_in(phase, image),
        Step::Seal => seal_in(phase, image),
    }
}
