//! The answer to a request: its file is read first, then its input, and then the work is done.

ghost use Rattle.std.specs.Prelude.{◌≡◌, ◌<◌, ◌≤◌, ◌∷◌, [], length, Some, IfOk, IfSome, option_copied, option_map};
ghost use Rattle.std.specs.Prelude.{unwrap_or};
ghost use Rattle.trips_outside.specs.Outside.{Rose};
ghost use Rattle.trips_answers.specs.Work.{Run, Save, work_on};
ghost use Rattle.trips_answers.specs.Fours.{IsFourDone, further_of};
ghost use Rattle.trips_answers.specs.Request.{form_named, form_of};
ghost use Rattle.trips_answers.specs.Settings.{settings_of};
ghost use Rattle.trips_answers.specs.inside.Settings.{request_seen};
ghost use Rattle.trips_answers.specs.Asks.{limit_of, most_input_bytes};
ghost use Rattle.trips_requests.specs.Limits.{most_count};
ghost use Rattle.trips_requests.specs.inside.Read.{IsWithin};
ghost use Rattle.trips_answers.specs.Worked.{IsDone, IsDoneBehind};
ghost use Rattle.trips_answers.specs.Answer.{IsAnswerBehind, IsAnswer};
ghost use Rattle.trips_requests.specs.Table.{AfterReading};

use crate::drawn_answer::draw_done;
use crate::forms::{FileForm, Settings, form_named, form_of, settings_for};
use crate::four_programs::Program;
use crate::further::second_read;
use crate::image_answer::{bytes_answer, target_answer};
use crate::loading::{MOST_SAVE_BYTES, read_input, read_origin};
use crate::saved_answer::{bytes_saved, target_saved, text_saved};
use crate::text_answer::{text_answer, text_compiled, text_listed};
use crate::trap_answer::trap_explained;
use base::Items;
use c_tree::MOST_SOURCE_BYTES;
use std::alloc::{AllocError, Global};
use trips_eval_answers::text_evaluated;
use trips_explain_answers::file_explained;
use trips_grid_answers::resumed;
use trips_outside::Files;
use trips_requests::{Answer, Asked, Command, Loaded, Tool, no_request, too_large, unread};
use trips_tools::{MOST_IMAGE_BYTES, MOST_TARGET_BYTES, tool_done};
use trips_trace_answers::{recorded, verified};

/// How many bytes a file may have, by what it is read as.
#[tactic(auto, unfolding(c_tree::specs::Limits::most_source_bytes, trips_requests::specs::Limits::most_target_bytes, trips_requests::specs::Limits::most_image_bytes, trips_requests::specs::Limits::most_save_bytes))]
pub fn limit_for(form: FileForm) -> u64
    ensures { result ≡ limit_of form }
{
    match form {
        FileForm::Source => MOST_SOURCE_BYTES,
        FileForm::Target => MOST_TARGET_BYTES,
        FileForm::Image => MOST_IMAGE_BYTES,
        FileForm::Saved => MOST_SAVE_BYTES,
    }
}

// Runs what the bytes of a file are.
fn run_done(
    alloc: Global,
    form: FileForm,
    bytes: &[u8],
    input: Items<u8>,
    settings: Settings,
) -> Result<Answer, AllocError>
    requires few { length bytes.now ≤ limit_of form }
    requires some { 0 < settings.most }
    requires turns { 0 < settings.unroll }
    ensures { IfOk result (λ answer. IsDone Run form settings bytes.now input
        answer.status answer.report.items) }
{
    match form {
        FileForm::Source => text_answer(alloc, bytes, input, settings),
        FileForm::Target => target_answer(alloc, bytes, input, settings),
        FileForm::Image => bytes_answer(alloc, bytes, input, settings),
        FileForm::Saved => resumed(
            alloc,
            bytes,
            settings.conditions,
            settings.most,
            settings.show,
        ),
    }
}

// Saves the run of what the bytes of a file are.
fn save_done(
    alloc: Global,
    form: FileForm,
    bytes: &[u8],
    input: Items<u8>,
    settings: Settings,
) -> Result<Answer, AllocError>
    requires few { length bytes.now ≤ limit_of form }
    requires some { 0 < settings.most }
    requires most { settings.most ≤ most_count }
    requires turns { 0 < settings.unroll }
    requires input { length input ≤ most_input_bytes }
    ensures { IfOk result (λ answer. IsDone Save form settings bytes.now input
        answer.status answer.report.items) }
{
    match form {
        FileForm::Source => text_saved(alloc, bytes, input, settings),
        FileForm::Target => target_saved(alloc, bytes, input, settings),
        FileForm::Image => bytes_saved(alloc, bytes, input, settings),
        // no name is one of such a file
        FileForm::Saved => Err(AllocError),
    }
}

// The name of the trace's file, of `verify`, or of the second file of `four`.
fn trace_of<'a>(asked: Asked<'a>) -> &'a str
    ensures { result.now ≡ (request_seen asked.entry).trace }
{
    match asked.second {
        Some(name) => name,
        None => "",
    }
}

// The name of a third or a fourth file, which `four` has.
fn name_of<'a>(name: Option<&'a str>) -> &'a str
    ensures { result.now ≡ unwrap_or (option_copied name.entry) [] }
{
    match name {
        Some(name) => name,
        None => "",
    }
}

// Reads the further files of `four`, and does its work.
fn four_done<F: Files>(
    alloc: Global,
    files: &mut F,
    asked: Asked<'_>,
    bytes: &[u8],
    input: Items<u8>,
) -> Result<Answer, AllocError>
    requires few { length bytes.now ≤ limit_of (form_named asked.file.now) }
    requires some { 0 < asked.most }
    requires turns { 0 < asked.unroll }
    ensures answer { IfOk result (λ answer. IsFourDone (further_of (F.held files.old) (request_seen asked.entry))
        (Rose (F.faults files.old) (F.faults files.new)) (settings_of (request_seen asked.entry))
        ((form_named asked.entry.file.now, bytes.now) ∷ []) input answer.status answer.report.items) }
    ensures kept { F.held files.new ≡ F.held files.old }
    ensures later { F.faults files.old ≤ F.faults files.new }
{
    let settings = settings_for(asked);
    let first = Program {
        form: form_named(asked.file),
        bytes: Items::from_slice(alloc, bytes)?,
    };
    let third = name_of(asked.third);
    let fourth = name_of(asked.fourth);
    second_read(
        alloc,
        files,
        trace_of(asked),
        third,
        fourth,
        &first,
        input.as_slice(),
        settings,
    )
}

// Does the work with the bytes of the file and of the input, where no other file is read.
fn work_done(
    alloc: Global,
    asked: Asked<'_>,
    bytes: &[u8],
    input: Items<u8>,
) -> Result<Answer, AllocError>
    requires few { length bytes.now ≤ limit_of (form_of asked.command asked.file.now) }
    requires input { length input ≤ most_input_bytes }
    requires some { 0 < asked.most }
    requires most { asked.most ≤ most_count }
    requires turns { 0 < asked.unroll }
    ensures { IfOk result (λ answer. IsDone (work_on asked.entry.command asked.entry.file.now)
        (form_of asked.entry.command asked.entry.file.now) (settings_of (request_seen asked.entry))
        bytes.now input answer.status answer.report.items) }
{
    let settings = settings_for(asked);
    match asked.command {
        Command::Run => {
            let form = form_of(asked.command, asked.file);
            run_done(alloc, form, bytes, input, settings)
        }
        Command::Evaluate => text_evaluated(alloc, bytes, input.as_slice(), settings.most),
        Command::Compile => text_compiled(alloc, bytes, settings.placing, settings.unroll),
        Command::List => text_listed(alloc, bytes, settings.placing, settings.unroll),
        Command::Assemble => tool_done(alloc, Tool::Assemble, bytes),
        Command::Disassemble => tool_done(alloc, Tool::Disassemble, bytes),
        Command::Check => tool_done(alloc, Tool::Check, bytes),
        Command::Explain => {
            file_explained(alloc, asked.file, bytes, input.as_slice(), settings.most)
        }
        Command::Trap => trap_explained(alloc, asked.file, bytes, input, settings.most),
        Command::Record => recorded(alloc, bytes, input, settings.most),
        // done by the caller
        Command::Verify => Err(AllocError),
        Command::Four => Err(AllocError),
        Command::Save => {
            let form = form_of(asked.command, asked.file);
            save_done(alloc, form, bytes, input, settings)
        }
        Command::Resume => run_done(alloc, FileForm::Saved, bytes, input, settings),
        Command::Draw => {
            let form = form_of(asked.command, asked.file);
            draw_done(alloc, form, bytes, settings)
        }
    }
}

// Does the work with the bytes of the file and of the input, and of a trace's file where one is judged, or of the
// further ones of `four`.
fn done<F: Files>(
    alloc: Global,
    files: &mut F,
    asked: Asked<'_>,
    bytes: &[u8],
    input: Items<u8>,
) -> Result<Answer, AllocError>
    requires few { length bytes.now ≤ limit_of (form_of asked.command asked.file.now) }
    requires input { length input ≤ most_input_bytes }
    requires some { 0 < asked.most }
    requires most { asked.most ≤ most_count }
    requires turns { 0 < asked.unroll }
    ensures answer { IfOk result (λ answer. IsDoneBehind (F.held files.old (request_seen asked.entry).trace)
        (further_of (F.held files.old) (request_seen asked.entry))
        (Rose (F.faults files.old) (F.faults files.new)) (work_on asked.entry.command asked.entry.file.now)
        (form_of asked.entry.command asked.entry.file.now) (settings_of (request_seen asked.entry))
        bytes.now input answer.status answer.report.items) }
    ensures kept { F.held files.new ≡ F.held files.old }
    ensures later { F.faults files.old ≤ F.faults files.new }
{
    match asked.command {
        Command::Verify => verified(alloc, files, bytes, input, trace_of(asked)),
        Command::Four => four_done(alloc, files, asked, bytes, input),
        _ => work_done(alloc, asked, bytes, input),
    }
}

// What is answered once the input was read.
fn input_answer<F: Files>(
    alloc: Global,
    files: &mut F,
    asked: Asked<'_>,
    bytes: &[u8],
    loaded: Loaded,
) -> Result<Answer, AllocError>
    requires few { length bytes.now ≤ limit_of (form_of asked.command asked.file.now) }
    requires input { IsWithin most_input_bytes loaded }
    requires some { 0 < asked.most }
    requires most { asked.most ≤ most_count }
    requires turns { 0 < asked.unroll }
    ensures answer { IfOk result (λ answer. AfterReading loaded
        (λ input. IsDoneBehind (F.held files.old (request_seen asked.entry).trace)
        (further_of (F.held files.old) (request_seen asked.entry))
        (Rose (F.faults files.old) (F.faults files.new)) (work_on asked.entry.command asked.entry.file.now)
        (form_of asked.entry.command asked.entry.file.now) (settings_of (request_seen asked.entry))
        bytes.now input answer.status answer.report.items)
        answer.status answer.report.items) }
    ensures kept { F.held files.new ≡ F.held files.old }
    ensures later { F.faults files.old ≤ F.faults files.new }
{
    match loaded {
        Loaded::Fault => unread(alloc),
        Loaded::TooLarge => too_large(alloc),
        Loaded::Bytes(input) => done(alloc, files, asked, bytes, input),
    }
}

// What is answered once the file was read.
fn file_answer<F: Files>(
    alloc: Global,
    files: &mut F,
    asked: Asked<'_>,
    bytes: &[u8],
) -> Result<Answer, AllocError>
    requires few { length bytes.now ≤ limit_of (form_of asked.command asked.file.now) }
    requires some { 0 < asked.most }
    requires most { asked.most ≤ most_count }
    requires turns { 0 < asked.unroll }
    ensures answer { IfOk result (λ answer. IsAnswerBehind (request_seen asked.entry)
        (F.held files.old) (Rose (F.faults files.old) (F.faults files.new)) bytes.now
        answer.status answer.report.items) }
    ensures kept { F.held files.new ≡ F.held files.old }
    ensures later { F.faults files.old ≤ F.faults files.new }
{
    let loaded = read_input(alloc, files, asked.input)?;
    input_answer(alloc, files, asked, bytes, loaded)
}

// What is answered to a request.
fn asked_answer<F: Files>(
    alloc: Global,
    files: &mut F,
    asked: Asked<'_>,
) -> Result<Answer, AllocError>
    requires some { 0 < asked.most }
    requires most { asked.most ≤ most_count }
    requires turns { 0 < asked.unroll }
    ensures answer { IfOk result (λ answer. IsAnswer (Some (request_seen asked.entry))
        (F.held files.old) (Rose (F.faults files.old) (F.faults files.new))
        answer.status answer.report.items) }
    ensures kept { F.held files.new ≡ F.held files.old }
    ensures later { F.faults files.old ≤ F.faults files.new }
{
    let limit = limit_for(form_of(asked.command, asked.file));
    match read_origin(alloc, files, asked.file, asked.functions, limit)? {
        Loaded::Fault => unread(alloc),
        Loaded::TooLarge => too_large(alloc),
        Loaded::Bytes(bytes) => file_answer(alloc, files, asked, bytes.as_slice()),
    }
}

/// What is answered to a request, or where there is none. Nothing is written yet.
pub fn answer_to<F: Files>(
    alloc: Global,
    files: &mut F,
    asked: Option<Asked<'_>>,
) -> Result<Answer, AllocError>
    requires some { IfSome asked (λ request. 0 < request.most) }
    requires most { IfSome asked (λ request. request.most ≤ most_count) }
    requires turns { IfSome asked (λ request. 0 < request.unroll) }
    ensures answer { IfOk result (λ answer. IsAnswer (option_map request_seen asked.entry)
        (F.held files.old) (Rose (F.faults files.old) (F.faults files.new))
        answer.status answer.report.items) }
    ensures kept { F.held files.new ≡ F.held files.old }
    ensures later { F.faults files.old ≤ F.faults files.new }
{
    match asked {
        None => no_request(alloc),
        Some(asked) => asked_answer(alloc, files, asked),
    }
}
