//! The exports that are commands. Each answers how many bytes its answer takes, and puts as many of them as there is
//! room for; 0 for want of memory, and where the number of blocks or steps is none that a command takes, or no turn
//! of a loop is allowed.

ghost use Rattle.std.specs.Prelude.{◌≡◌, ◌<◌, ◌≤◌, [], None, length, take, false};
ghost use Rattle.trips_requests.specs.declared.commands.Command.TheVariants as command;
ghost use Rattle.trips_answers.specs.inside.Settings.{request_seen};
ghost use Rattle.trips_page.specs.Told.{IsTold, c_name, evaluation_of, image_name, run_of, target_name, work_of};

use crate::answering::answer;
use std::alloc::Global;
use trips_requests::{Asked, Command, DEFAULT_COUNT, PredictorStart, WeatherKind};

// The request of a command without an input.
fn work(command: Command, file: &'static str, unroll: u8) -> Asked<'static>
    ensures request { request_seen result ≡ work_of command file.now unroll }
    ensures file { result.file.now ≡ file.now }
{
    Asked {
        command,
        file,
        second: None,
        third: None,
        fourth: None,
        functions: None,
        input: None,
        most: DEFAULT_COUNT,
        place: None,
        unroll,
        seed: 0,
        predictor: PredictorStart::Seeded,
        weather: WeatherKind::Seeded,
        frames: 8,
        regs: false,
        trace: false,
        cycles: false,
        stats: false,
        events: None,
    }
}

/// `run` of a text of C on an input, with so many turns of a loop in a block.
#[unsafe(no_mangle)]
pub extern "C" fn page_run(
    alloc: Global,
    text: &[u8],
    input: &[u8],
    seed: u64,
    most: u32,
    unroll: u8,
    regs: bool,
    trace: bool,
    cycles: bool,
    out: &mut [u8],
) -> usize
    ensures { 0 < result → result ≤ length out.old → IsTold (run_of c_name most unroll seed
        (record { regs = regs; trace = trace; cycles = cycles; stats = false; events = None })) c_name text.now
        input.now (take result out.new) }
{
    let asked = Asked {
        command: Command::Run,
        file: "program.c",
        second: None,
        third: None,
        fourth: None,
        functions: None,
        input: Some("input"),
        most,
        place: None,
        unroll,
        seed,
        predictor: PredictorStart::Seeded,
        weather: WeatherKind::Seeded,
        frames: 8,
        regs,
        trace,
        cycles,
        stats: false,
        events: None,
    };
    answer(alloc, asked, text, input, out)
}

/// `run` of an image on an input.
#[unsafe(no_mangle)]
pub extern "C" fn page_run_image(
    alloc: Global,
    image: &[u8],
    input: &[u8],
    seed: u64,
    most: u32,
    regs: bool,
    trace: bool,
    cycles: bool,
    out: &mut [u8],
) -> usize
    ensures { 0 < result → result ≤ length out.old → IsTold (run_of image_name most 1 seed
        (record { regs = regs; trace = trace; cycles = cycles; stats = false; events = None })) image_name image.now
        input.now (take result out.new) }
{
    let asked = Asked {
        command: Command::Run,
        file: "program.img",
        second: None,
        third: None,
        fourth: None,
        functions: None,
        input: Some("input"),
        most,
        place: None,
        unroll: 1,
        seed,
        predictor: PredictorStart::Seeded,
        weather: WeatherKind::Seeded,
        frames: 8,
        regs,
        trace,
        cycles,
        stats: false,
        events: None,
    };
    answer(alloc, asked, image, input, out)
}

/// `eval` of a text of C on an input.
#[unsafe(no_mangle)]
pub extern "C" fn page_evaluate(
    alloc: Global,
    text: &[u8],
    input: &[u8],
    most: u32,
    out: &mut [u8],
) -> usize
    ensures { 0 < result → result ≤ length out.old
        → IsTold (evaluation_of most) c_name text.now input.now (take result out.new) }
{
    let asked = Asked {
        command: Command::Evaluate,
        file: "program.c",
        second: None,
        third: None,
        fourth: None,
        functions: None,
        input: Some("input"),
        most,
        place: None,
        unroll: 1,
        seed: 0,
        predictor: PredictorStart::Seeded,
        weather: WeatherKind::Seeded,
        frames: 8,
        regs: false,
        trace: false,
        cycles: false,
        stats: false,
        events: None,
    };
    answer(alloc, asked, text, input, out)
}

/// `compile` of a text of C, with so many turns of a loop in a block.
#[unsafe(no_mangle)]
pub extern "C" fn page_compile(alloc: Global, text: &[u8], unroll: u8, out: &mut [u8]) -> usize
    ensures { 0 < result → result ≤ length out.old
        → IsTold (work_of command.Compile c_name unroll) c_name text.now [] (take result out.new) }
{
    answer(
        alloc,
        work(Command::Compile, "program.c", unroll),
        text,
        &[],
        out,
    )
}

/// `asm` of a target text.
#[unsafe(no_mangle)]
pub extern "C" fn page_assemble(alloc: Global, text: &[u8], out: &mut [u8]) -> usize
    ensures { 0 < result → result ≤ length out.old
        → IsTold (work_of command.Assemble target_name 1) target_name text.now [] (take result out.new) }
{
    answer(
        alloc,
        work(Command::Assemble, "program.tasl", 1),
        text,
        &[],
        out,
    )
}

/// `dis` of an image.
#[unsafe(no_mangle)]
pub extern "C" fn page_disassemble(alloc: Global, image: &[u8], out: &mut [u8]) -> usize
    ensures { 0 < result → result ≤ length out.old
        → IsTold (work_of command.Disassemble image_name 1) image_name image.now [] (take result out.new) }
{
    answer(
        alloc,
        work(Command::Disassemble, "program.img", 1),
        image,
        &[],
        out,
    )
}

/// `check` of an image.
#[unsafe(no_mangle)]
pub extern "C" fn page_check(alloc: Global, image: &[u8], out: &mut [u8]) -> usize
    ensures { 0 < result → result ≤ length out.old
        → IsTold (work_of command.Check image_name 1) image_name image.now [] (take result out.new) }
{
    answer(
        alloc,
        work(Command::Check, "program.img", 1),
        image,
        &[],
        out,
    )
}

/// `explain` of a text of C.
#[unsafe(no_mangle)]
pub extern "C" fn page_explain(alloc: Global, text: &[u8], out: &mut [u8]) -> usize
    ensures { 0 < result → result ≤ length out.old
        → IsTold (work_of command.Explain c_name 1) c_name text.now [] (take result out.new) }
{
    answer(
        alloc,
        work(Command::Explain, "program.c", 1),
        text,
        &[],
        out,
    )
}

/// `explain` of a target text.
#[unsafe(no_mangle)]
pub extern "C" fn page_explain_target(alloc: Global, text: &[u8], out: &mut [u8]) -> usize
    ensures { 0 < result → result ≤ length out.old
        → IsTold (work_of command.Explain target_name 1) target_name text.now [] (take result out.new) }
{
    answer(
        alloc,
        work(Command::Explain, "program.tasl", 1),
        text,
        &[],
        out,
    )
}
