//! The further files of `four` are read one after another, and then the work is done.

ghost use Rattle.std.specs.Prelude.{◌≡◌, ◌<◌, ◌≤◌, ◌∷◌, [], IfOk, length};
ghost use Rattle.trips_outside.specs.Outside.{Rose};
ghost use Rattle.trips_answers.specs.Asks.{limit_of};
ghost use Rattle.trips_answers.specs.Fours.{IsFourDone};
ghost use Rattle.trips_answers.specs.Request.{form_named};
ghost use Rattle.trips_answers.specs.inside.Made.{seen_as};

use crate::asked_answer::limit_for;
use crate::forms::{Settings, form_named};
use crate::four_programs::{Program, files_answer};
use std::alloc::{AllocError, Global};
use trips_outside::Files;
use trips_requests::{Answer, Loaded, read, too_large, unread};

// What is answered behind the fourth file, which is read.
fn fourth_read<F: Files>(
    alloc: Global,
    files: &mut F,
    fourth: &str,
    first: &Program,
    second: &Program,
    third: &Program,
    input: &[u8],
    settings: Settings,
) -> Result<Answer, AllocError>
    requires first { length first.now.bytes ≤ limit_of first.now.form }
    requires second { length second.now.bytes ≤ limit_of second.now.form }
    requires third { length third.now.bytes ≤ limit_of third.now.form }
    requires some { 0 < settings.most }
    requires turns { 0 < settings.unroll }
    ensures answer { IfOk result (λ answer. IsFourDone ((form_named fourth.now, F.held files.old fourth.now) ∷ [])
        (Rose (F.faults files.old) (F.faults files.new)) settings
        (seen_as first.now ∷ seen_as second.now ∷ seen_as third.now ∷ []) input.now
        answer.status answer.report.items) }
    ensures kept { F.held files.new ≡ F.held files.old }
    ensures later { F.faults files.old ≤ F.faults files.new }
{
    let form = form_named(fourth);
    match read(alloc, files, fourth, limit_for(form))? {
        Loaded::Fault => unread(alloc),
        Loaded::TooLarge => too_large(alloc),
        Loaded::Bytes(bytes) => {
            let fourth = Program { form, bytes };
            files_answer(alloc, first, second, third, &fourth, input, settings)
        }
    }
}

// Behind the third, which is read before it.
fn third_read<F: Files>(
    alloc: Global,
    files: &mut F,
    third: &str,
    fourth: &str,
    first: &Program,
    second: &Program,
    input: &[u8],
    settings: Settings,
) -> Result<Answer, AllocError>
    requires first { length first.now.bytes ≤ limit_of first.now.form }
    requires second { length second.now.bytes ≤ limit_of second.now.form }
    requires some { 0 < settings.most }
    requires turns { 0 < settings.unroll }
    ensures answer { IfOk result (λ answer. IsFourDone ((form_named third.now, F.held files.old third.now)
        ∷ (form_named fourth.now, F.held files.old fourth.now) ∷ [])
        (Rose (F.faults files.old) (F.faults files.new)) settings
        (seen_as first.now ∷ seen_as second.now ∷ []) input.now answer.status answer.report.items) }
    ensures kept { F.held files.new ≡ F.held files.old }
    ensures later { F.faults files.old ≤ F.faults files.new }
{
    let form = form_named(third);
    match read(alloc, files, third, limit_for(form))? {
        Loaded::Fault => unread(alloc),
        Loaded::TooLarge => too_large(alloc),
        Loaded::Bytes(bytes) => {
            let third = Program { form, bytes };
            fourth_read(alloc, files, fourth, first, second, &third, input, settings)
        }
    }
}

/// What is answered to four files, of which the first was read: the others are read, and then the work is done.
pub fn second_read<F: Files>(
    alloc: Global,
    files: &mut F,
    second: &str,
    third: &str,
    fourth: &str,
    first: &Program,
    input: &[u8],
    settings: Settings,
) -> Result<Answer, AllocError>
    requires first { length first.now.bytes ≤ limit_of first.now.form }
    requires some { 0 < settings.most }
    requires turns { 0 < settings.unroll }
    ensures answer { IfOk result (λ answer. IsFourDone ((form_named second.now, F.held files.old second.now)
        ∷ (form_named third.now, F.held files.old third.now)
        ∷ (form_named fourth.now, F.held files.old fourth.now) ∷ [])
        (Rose (F.faults files.old) (F.faults files.new)) settings (seen_as first.now ∷ []) input.now
        answer.status answer.report.items) }
    ensures kept { F.held files.new ≡ F.held files.old }
    ensures later { F.faults files.old ≤ F.faults files.new }
{
    let form = form_named(second);
    match read(alloc, files, second, limit_for(form))? {
        Loaded::Fault => unread(alloc),
        Loaded::TooLarge => too_large(alloc),
        Loaded::Bytes(bytes) => {
            let second = Program { form, bytes };
            third_read(alloc, files, third, fourth, first, &second, input, settings)
        }
    }
}
