//! What the words are answered, and what is written: the table, and what it says of images that are compiled, of the
//! reports of refusals and of the grid's counts.

ghost use Rattle.std.specs.Prelude.{◌≡◌, ◌≢◌, ◌≤◌, ◌+◌, ◌*◌, ◌∷◌, [], All, List, ℕ, ℤ, Some};
ghost use Rattle.trips_isa.specs.declared.block.Image.{Image};
ghost use Rattle.trips_isa.specs.declared.run.Ending.TheVariants as ending;
ghost use Rattle.trips_isa.specs.declared.run.Stepped.TheVariants as stepped;
ghost use Rattle.trips_isa.specs.Machine.{State, runs, start};
ghost use Rattle.c_tree.specs.declared.typed.TypedProgram.{TypedProgram};
ghost use Rattle.c_front.specs.Fronts.{IsAccepted};
ghost use Rattle.c_meaning_spec.specs.declared.signal.Ending.TheVariants.{Deep};
ghost use Rattle.c_meaning_spec.specs.Eval.{Stopped, Done, eval};
ghost use Rattle.c_compile.specs.Images.{IsImageOf};
ghost use Rattle.trips_listing_answers.specs.Listings.{IsListing};
ghost use Rattle.grid_meaning.specs.Meant.{EndsAsMeant};
ghost use Rattle.block_image.specs.Spelling.{ImageBytes};
ghost use Rattle.block_check.specs.Faults.{IsGood};
ghost use Rattle.machine_save.specs.Spelling.{SaveBytes};
ghost use Rattle.trips_outside.specs.Outside.{Rose, Appended};
ghost use Rattle.target_file.specs.Files.{TargetFile};
ghost use Rattle.trips_report.specs.declared.show.Show.{Show};
ghost use Rattle.trips_answers.specs.Work.{Work};
ghost use Rattle.trips_answers.specs.Work.{Run, Compile, Listing, Evaluate, Four};
ghost use Rattle.trips_four_answers.specs.Runs.{IsFourRun};
ghost use Rattle.trips_requests.specs.Table.{IsOneOf, Wrote};
ghost use Rattle.trips_answers.specs.declared.forms.FileForm.{FileForm};
ghost use Rattle.trips_answers.specs.declared.forms.FileForm.TheVariants as form;
ghost use Rattle.trips_answers.specs.Request.{Request, request_of};
ghost use Rattle.trips_answers.specs.Settings.{settings_with};
ghost use Rattle.trips_requests.specs.Results.{result_status};
ghost use Rattle.trips_answers.specs.Asks.{IsServed, ended_report, nothing_shown};
ghost use Rattle.trips_answers.specs.Fours.{AreImagesBy, AreTold, Program, further_of};
ghost use Rattle.trips_answers.specs.Done.{CanBeRun};
ghost use Rattle.trips_answers.specs.Refused.{IsLowestRefused, IsRefusedAs, MayBeRefused, IsRefused};
ghost use Rattle.trips_answers.specs.Report.{ending_of, full_report, run_report, status_of};
ghost use Rattle.trips_answers.specs.Table.{IsAnswered, IsReported, IsReportedFrom, EndsAs, EvalEnds};
ghost use Rattle.trips_answers.specs.Ended.{ResultMeans};

use crate::command_line::answer_for;
use std::alloc::Global;
use trips_answers::Status;
use trips_outside::{Files, Sink, write_all};

// Makes the whole answer to the words, and then writes it.
fn answer_written<F: Files, K: Sink>(
    alloc: Global,
    words: &[String],
    files: &mut F,
    sink: &mut K,
) -> Status
    ensures answered { IsAnswered (request_of words.now) (F.held files.old)
        (Rose (F.faults files.old) (F.faults files.new)) (K.written sink.old) (K.written sink.new)
        (Rose (K.faults sink.old) (K.faults sink.new)) result }
    ensures kept { F.held files.new ≡ F.held files.old }
    ensures reads_later { F.faults files.old ≤ F.faults files.new }
    ensures writes_later { K.faults sink.old ≤ K.faults sink.new }
{
    let Ok(answer) = answer_for(alloc, words, files) else {
        return Status::Memory;
    };
    match write_all(sink, &answer.report) {
        Ok(()) => answer.status,
        Err(_) => Status::WriteFault,
    }
}

/// Does what the words ask, and answers the exit status: the one call that `trips_run` makes. Its clauses name the
/// image that the compiler's passes make of a text, the grid that was run and the exact report of each refusal.
pub fn answer_words<F: Files, K: Sink>(
    alloc: Global,
    words: &[String],
    files: &mut F,
    sink: &mut K,
) -> Status
    // The table: whatever comes, it is the row of the request, of what was read and of the writing.
    ensures answered { IsAnswered (request_of words.now) (F.held files.old)
        (Rose (F.faults files.old) (F.faults files.new)) (K.written sink.old) (K.written sink.new)
        (Rose (K.faults sink.old) (K.faults sink.new)) result }

    // Of an accepted program whose evaluation ends within n steps, its output and its result are reported with
    // whatever is asked for behind them: there is an image of the text, whose blocks are placed as it is asked for,
    // and a run of it on the grid under the request's conditions (its seed, its predictor and its weather), of which
    // all this is told: its committed blocks are the machine's, and it has made no more cycles than they cost. Where it
    // has ended it is as the law of `grid_meaning` has it (`EndsAsMeant`).
    ensures shown_headline { (most n : ℕ) (show : Show) (text input output : List ℕ) (value : ℤ)
        (steps : ℕ) (program : TypedProgram)
        → (call : IsServed (request_of words.now) (F.held files.old) Run form.Source most show text input
        (F.faults files.old) (F.faults files.new) (K.faults sink.old) (K.faults sink.new) result)
        → IsAccepted text program → eval program input n ≡ Done output value steps
        → 16 * n + 16 ≤ most
        → (image : Image) × IsImageOf text call.asks.q.placing call.asks.q.unroll image
        × ((runs image.blocks (start image.bytes input) most).1 ≡ stepped.Ended)
        × (told : IsReported image input (settings_with call.asks.q most show) (result_status value)
        (ended_report output value) result (K.written sink.old) (K.written sink.new))
        × EndsAsMeant image input most [] output value ending.Ended told.1.grid }

    // Where its frames are too large within n steps, a full stack is.
    ensures shown_deep { (most n : ℕ) (show : Show) (text input output : List ℕ)
        (program : TypedProgram)
        → (call : IsServed (request_of words.now) (F.held files.old) Run form.Source most show text input
        (F.faults files.old) (F.faults files.new) (K.faults sink.old) (K.faults sink.new) result)
        → IsAccepted text program → eval program input n ≡ Stopped Deep output
        → 16 * n + 16 ≤ most
        → (image : Image) × IsImageOf text call.asks.q.placing call.asks.q.unroll image
        × ((runs image.blocks (start image.bytes input) most).1 ≡ stepped.StackFull)
        × IsReported image input (settings_with call.asks.q most show) Status.StackFull (full_report output)
        result (K.written sink.old) (K.written sink.new) }

    // Whatever its evaluation comes to, the run of an image of the text is reported, placed as asked for; here where
    // nothing is shown, and below whatever is shown.
    ensures text_run { (most : ℕ) (text input : List ℕ) (program : TypedProgram)
        → (call : IsServed (request_of words.now) (F.held files.old) Run form.Source most nothing_shown text input
        (F.faults files.old) (F.faults files.new) (K.faults sink.old) (K.faults sink.new) result)
        → IsAccepted text program
        → (image : Image) × IsImageOf text call.asks.q.placing call.asks.q.unroll image
        × let run = runs image.blocks (start image.bytes input) most in
        (result ≡ status_of (ending_of run.1 run.0.next) run.0)
        × Appended (K.written sink.old) (K.written sink.new)
        (run_report (ending_of run.1 run.0.next) run.0) }
    ensures shown_text_run { (most : ℕ) (show : Show) (text input : List ℕ) (program : TypedProgram)
        → (call : IsServed (request_of words.now) (F.held files.old) Run form.Source most show text input
        (F.faults files.old) (F.faults files.new) (K.faults sink.old) (K.faults sink.new) result)
        → IsAccepted text program
        → (image : Image) × IsImageOf text call.asks.q.placing call.asks.q.unroll image
        × let run = runs image.blocks (start image.bytes input) most in
        IsReported image input (settings_with call.asks.q most show) (status_of (ending_of run.1 run.0.next) run.0)
        (run_report (ending_of run.1 run.0.next) run.0) result (K.written sink.old) (K.written sink.new) }

    // The same of the run of an image of good blocks, and of that of a target text: the counts are those of a grid
    // that comes by exactly as many eager cycles from the stated start under the request's conditions. Where the
    // statistics are shown, each number is how many of the notes of these very cycles and of their end count for it,
    // while that has room in 64 bits (`statistics` of `IsCountedFrom`). Where the events of some cycles are shown,
    // their lines are those of the notes of these very cycles (`events`); so too above and below.
    ensures shown_image_run { (most : ℕ) (show : Show) (bytes input : List ℕ) (image : Image)
        → (call : IsServed (request_of words.now) (F.held files.old) Run form.Image most show bytes input
        (F.faults files.old) (F.faults files.new) (K.faults sink.old) (K.faults sink.new) result)
        → ImageBytes image bytes → All IsGood image.blocks
        → let run = runs image.blocks (start image.bytes input) most in
        IsReported image input (settings_with call.asks.q most show) (status_of (ending_of run.1 run.0.next) run.0)
        (run_report (ending_of run.1 run.0.next) run.0) result (K.written sink.old) (K.written sink.new) }
    ensures target_run { (most : ℕ) (show : Show) (text input : List ℕ) (image : Image)
        → (call : IsServed (request_of words.now) (F.held files.old) Run form.Target most show text input
        (F.faults files.old) (F.faults files.new) (K.faults sink.old) (K.faults sink.new) result)
        → TargetFile image text → All IsGood image.blocks
        → let run = runs image.blocks (start image.bytes input) most in
        IsReported image input (settings_with call.asks.q most show) (status_of (ending_of run.1 run.0.next) run.0)
        (run_report (ending_of run.1 run.0.next) run.0) result (K.written sink.old) (K.written sink.new) }

    // The run from the state that bytes save is reported so, with the counts of a grid that comes by exactly as many
    // eager cycles from the start under the request's conditions in that state.
    ensures shown_resumed { (most : ℕ) (show : Show) (bytes input : List ℕ) (image : Image) (t : State)
        → (call : IsServed (request_of words.now) (F.held files.old) Run form.Saved most show bytes input
        (F.faults files.old) (F.faults files.new) (K.faults sink.old) (K.faults sink.new) result)
        → SaveBytes image t bytes
        → let run = runs image.blocks (record t { trace = [] }) most in
        IsReportedFrom image.blocks (record t { trace = [] }) (settings_with call.asks.q most show)
        (status_of (ending_of run.1 run.0.next) run.0) (run_report (ending_of run.1 run.0.next) run.0)
        result (K.written sink.old) (K.written sink.new) }

    // The bytes of an image of the text are written, and nothing else.
    ensures compiled { (how : FileForm) (most : ℕ) (show : Show) (text input : List ℕ)
        (program : TypedProgram)
        → (call : IsServed (request_of words.now) (F.held files.old) Compile how most show text input
        (F.faults files.old) (F.faults files.new) (K.faults sink.old) (K.faults sink.new) result)
        → IsAccepted text program
        → (image : Image) × IsImageOf text call.asks.q.placing call.asks.q.unroll image × (bytes : List ℕ)
        × ImageBytes image bytes
        × (result ≡ Status.Ended) × Appended (K.written sink.old) (K.written sink.new) bytes }

    // Where its listing is asked for, it is that of such an image: the target text of the image, with comments.
    ensures listed { (how : FileForm) (most : ℕ) (show : Show) (text input : List ℕ)
        (program : TypedProgram)
        → (call : IsServed (request_of words.now) (F.held files.old) Listing how most show text input
        (F.faults files.old) (F.faults files.new) (K.faults sink.old) (K.faults sink.new) result)
        → IsAccepted text program
        → (listing : List ℕ) × IsListing text call.asks.q.placing call.asks.q.unroll listing
        × (result ≡ Status.Ended) × Appended (K.written sink.old) (K.written sink.new) listing }

    // The images that are made of four files run on one grid: each as it runs alone, in exactly as many eager cycles
    // as are counted, from the stated start of all four of the request's seed.
    ensures shown_fours { (how : FileForm) (most : ℕ) (show : Show) (bytes input : List ℕ) (others : List Program)
        → (call : IsServed (request_of words.now) (F.held files.old) Four how most show bytes input
        (F.faults files.old) (F.faults files.new) (K.faults sink.old) (K.faults sink.new) result)
        → AreTold (further_of (F.held files.old) call.asks.q) others → CanBeRun ((how, bytes) ∷ others)
        → (images : List Image)
        × AreImagesBy (settings_with call.asks.q most show) ((how, bytes) ∷ others) images
        × Wrote (K.written sink.old) (K.written sink.new)
        (IsFourRun images input call.asks.q.seed most show.cycles result) }

    // Where no image is made of one of the four, the lowest of these is refused, behind the line that names it.
    ensures four_refusal { (how : FileForm) (most : ℕ) (show : Show) (bytes input report : List ℕ)
        (others : List Program)
        → (call : IsServed (request_of words.now) (F.held files.old) Four how most show bytes input
        (F.faults files.old) (F.faults files.new) (K.faults sink.old) (K.faults sink.new) result)
        → AreTold (further_of (F.held files.old) call.asks.q) others
        → IsLowestRefused 0 ((how, bytes) ∷ others) report
        → (result ≡ Status.Refused)
        × Appended (K.written sink.old) (K.written sink.new) report }

    // A refusal's report is appended, and no other: the stage, its number, the name and the place. Of `four` it is
    // told above.
    ensures refusal { (work : Work) (how : FileForm) (most : ℕ) (show : Show)
        (bytes input report : List ℕ)
        → IsServed (request_of words.now) (F.held files.old) work how most show bytes input
        (F.faults files.old) (F.faults files.new) (K.faults sink.old) (K.faults sink.new) result
        → work ≢ Four → IsRefusedAs work how bytes report
        → (result ≡ Status.Refused)
        × Appended (K.written sink.old) (K.written sink.new) report }

    // What a status says where the files are told in part, or not at all.
    ensures refused_only { result ≡ Status.Refused
        → MayBeRefused (request_of words.now) (F.held files.old) }
    ensures refused_comes { IsRefused (request_of words.now) (F.held files.old)
        → IsOneOf result (Status.Refused ∷ Status.ReadFault
        ∷ Status.Memory ∷ Status.WriteFault ∷ []) }
    ensures undefined_only { result ≡ Status.Undefined
        → EvalEnds (request_of words.now) (F.held files.old) result }
    ensures eval_ends { (q : Request) → request_of words.now ≡ Some q → q.work ≡ Evaluate
        → IsOneOf result (Status.Ended ∷ Status.Budget ∷ Status.StackFull ∷ Status.Undefined ∷ Status.Aborted ∷ [])
        → EndsAs (F.held files.old) q result }
    ensures run_ends { (q : Request) → request_of words.now ≡ Some q → q.work ≡ Run
        → IsOneOf result (Status.Ended ∷ Status.Budget ∷ Status.StackFull ∷ Status.Trap ∷ Status.Aborted ∷ [])
        → EndsAs (F.held files.old) q result }
    ensures made_ends { (q : Request) → request_of words.now ≡ Some q → result ≡ Status.Ended
        → EndsAs (F.held files.old) q result }
    ensures result_means { (q : Request) → request_of words.now ≡ Some q → q.work ≡ Run
        → q.form ≡ form.Source → result ≡ Status.Ended
        → ResultMeans (F.held files.old) q result (K.written sink.old) (K.written sink.new) }

    ensures kept { F.held files.new ≡ F.held files.old }
    ensures reads_later { F.faults files.old ≤ F.faults files.new }
    ensures writes_later { K.faults sink.old ≤ K.faults sink.new }
{
    answer_written(alloc, words, files, sink)
}
