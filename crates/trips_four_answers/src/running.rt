//! Four images are run on one grid, and their ends are told.
ghost use Rattle.std.specs.Prelude.{◌≡◌, ◌<◌, ◌++◌, ◌∷◌, [], ◌^◌, All, IfOk, OnOk, length};
ghost use Rattle.operand_net.specs.Seeded.{generator};
ghost use Rattle.smt_mode.specs.Fours.{fours_of};
ghost use Rattle.smt_mode.specs.Machines.{four_of, images_of};
ghost use Rattle.smt_mode.specs.Starts.{begun_at, images_at};
ghost use Rattle.trips_four_answers.specs.Runs.{IsFourRun, IsStarted};
ghost use Rattle.trips_four_answers.specs.inside.Ended as ended;
ghost use Rattle.trips_report.specs.Endings.{status_of};
ghost use Rattle.trips_four_answers.specs.Report.{status_or};
ghost use Rattle.trips_four_answers.specs.inside.Ended.{AreTold, HaveBegun, costs_by, status_by, text_by, texts_by};

use crate::telling::{program_cost, status_before, tell_counts, tell_program};
use block_check::CheckedImage;
use block_predict::Predictor;
use operand_net::PcgWeather;
use smt_mode::{Four, Started};
use std::alloc::{AllocError, Global};
use trips_isa::Ending;
use trips_requests::{Answer, Status};

// An image at the start of its run on an input, with the predictor of a seed.
fn started(
    alloc: Global,
    image: CheckedImage,
    input: &[u8],
    seed: u64,
) -> Result<Started, AllocError>
    ensures { IfOk result (λ s. IsStarted input.now seed image s) }
{
    let input = Vec::from_slice(alloc, input)?;
    match Predictor::make(alloc, seed) {
        Ok(predictor) => Ok(Started {
            image,
            input,
            predictor,
        }),
        Err(_) => Err(AllocError),
    }
}

// Four programs at the start of their runs on one grid, in the weather of a seed.
fn machine_of(
    alloc: Global,
    programs: [Started; 4],
    seed: u64,
    most: u32,
) -> Result<Four<PcgWeather>, AllocError>
    requires some { 0 < most }
    requires stack { All (λ s. s.predictor.stack ≡ []) programs }
    ensures begun { IfOk result (λ f. four_of f ≡ begun_at programs (record { generator = generator seed })) }
    ensures images { IfOk result (λ f. images_of f ≡ images_at programs) }
    ensures budget { IfOk result (λ f. f.budget ≡ most) }
{
    match Four::make(alloc, programs, PcgWeather::make(seed), most) {
        Ok(four) => Ok(four),
        Err(_) => Err(AllocError),
    }
}

// Four images at the start of their runs on one grid, in the weather of a seed.
fn begun(
    alloc: Global,
    first: CheckedImage,
    second: CheckedImage,
    third: CheckedImage,
    fourth: CheckedImage,
    input: &[u8],
    seed: u64,
    most: u32,
) -> Result<Four<PcgWeather>, AllocError>
    requires some { 0 < most }
    ensures { IfOk result (λ f. HaveBegun (first ∷ second ∷ third ∷ fourth ∷ []) input.now seed most (fours_of f)) }
{
    let first = started(alloc, first, input, seed)?;
    let second = started(alloc, second, input, seed)?;
    let third = started(alloc, third, input, seed)?;
    let fourth = started(alloc, fourth, input, seed)?;
    machine_of(alloc, [first, second, third, fourth], seed, most)
}

// The report of a program is put behind others.
fn tell(
    alloc: Global,
    out: &mut Vec<u8>,
    four: &Four<PcgWeather>,
    program: u8,
    ending: Ending,
) -> Result<(), AllocError>
    requires { program < 4 }
    ensures { OnOk result (out.new.items ≡ out.old.items ++ text_by (fours_of four.now) program ending) }
{
    tell_program(alloc, out, program, ending, four.window(program))
}

// What a program may have cost.
fn cost_by(four: &Four<PcgWeather>, program: u8, ending: Ending) -> u64
    requires { program < 4 }
    ensures value { result ≡ ended.cost_by (fours_of four.now) program ending }
    ensures few { result < 2 ^ 60 }
{
    program_cost(four.window(program), ending)
}

// The status of a program that has ended so, or behind an end the later one.
fn status_from(four: &Four<PcgWeather>, program: u8, ending: Ending, later: Status) -> Status
    requires { program < 4 }
    ensures { result ≡ status_or (status_of ending ((fours_of four.now).four.own program).window.state) later }
{
    status_before(four.window(program), ending, later)
}

// The reports of all.
fn reports(
    alloc: Global,
    four: &Four<PcgWeather>,
    first: Ending,
    second: Ending,
    third: Ending,
    fourth: Ending,
) -> Result<Vec<u8>, AllocError>
    ensures { IfOk result (λ text. text.items
        ≡ texts_by (fours_of four.now) 0 (first ∷ second ∷ third ∷ fourth ∷ [])) }
{
    let mut text = Vec::new(alloc);
    tell(alloc, &mut text, four, 0, first)?;
    tell(alloc, &mut text, four, 1, second)?;
    tell(alloc, &mut text, four, 2, third)?;
    tell(alloc, &mut text, four, 3, fourth)?;
    Ok(text)
}

// What all may have cost.
fn costs(
    four: &Four<PcgWeather>,
    first: Ending,
    second: Ending,
    third: Ending,
    fourth: Ending,
) -> u64
    ensures { result ≡ costs_by (fours_of four.now) 0 (first ∷ second ∷ third ∷ fourth ∷ []) }
{
    let mut cost = cost_by(four, 0, first);
    cost += cost_by(four, 1, second);
    cost += cost_by(four, 2, third);
    cost + cost_by(four, 3, fourth)
}

// The status of the lowest that has not ended with its end.
fn status(
    four: &Four<PcgWeather>,
    first: Ending,
    second: Ending,
    third: Ending,
    fourth: Ending,
) -> Status
    ensures { result ≡ status_by (fours_of four.now) 0 (first ∷ second ∷ third ∷ fourth ∷ []) }
{
    let last = status_from(four, 3, fourth, Status::Ended);
    let third_on = status_from(four, 2, third, last);
    let second_on = status_from(four, 1, second, third_on);
    status_from(four, 0, first, second_on)
}

// There are four. It does nothing.
fn are_four(endings: [Ending; 4])
    ensures { length endings ≡ 4 }
{}

// The answer that tells how all have ended.
fn ended_answer(
    alloc: Global,
    four: &Four<PcgWeather>,
    endings: [Ending; 4],
    cycles: bool,
) -> Result<Answer, AllocError>
    ensures { IfOk result (λ answer. AreTold (fours_of four.now) cycles endings answer.status answer.report.items) }
{
    are_four(endings);
    let [first, second, third, fourth] = endings;
    let mut report = reports(alloc, four, first, second, third, fourth)?;
    let cost = costs(four, first, second, third, fourth);
    tell_counts(&mut report, cycles, four.cycles(), cost)?;
    Ok(Answer {
        status: status(four, first, second, third, fourth),
        report,
    })
}

/// Runs four images on one input, each for at most so many blocks, on one grid whose predictors and weather are those
/// of a seed, and tells how each has ended and, where they are to be shown, how many cycles they took together. Want
/// of memory is the only error.
pub fn four_answer(
    alloc: Global,
    first: CheckedImage,
    second: CheckedImage,
    third: CheckedImage,
    fourth: CheckedImage,
    input: &[u8],
    seed: u64,
    most: u32,
    cycles: bool,
) -> Result<Answer, AllocError>
    requires { 0 < most }
    ensures { IfOk result (λ answer. IsFourRun (first ∷ second ∷ third ∷ fourth ∷ []) input.now seed most cycles
        answer.status answer.report.items) }
{
    let mut four = begun(alloc, first, second, third, fourth, input, seed, most)?;
    let endings = four.run();
    ended_answer(alloc, &four, endings, cycles)
}
