ghost use Rattle.std.specs.Prelude.{◌≡◌, ◌≢◌, ◌≤◌, ◌+◌, ◌-◌, ◌*◌, ◌∷◌, ◌++◌, [], List, ℕ, ℤ, Some};
ghost use Rattle.trips_isa.specs.declared.block.Image.{Image};
ghost use Rattle.trips_isa.specs.Machine.{State};
ghost use Rattle.c_tree.specs.declared.typed.TypedProgram.{TypedProgram};
ghost use Rattle.c_front.specs.Fronts.{IsAccepted};
ghost use Rattle.c_meaning_spec.specs.declared.signal.Ending.TheVariants.{Deep};
ghost use Rattle.c_meaning_spec.specs.Eval.{Stopped, Done, eval};
ghost use Rattle.c_compile.specs.Meant.{DoesText};
ghost use Rattle.trips_outside.specs.Outside.{Appended, Rose, Undisturbed};
ghost use Rattle.trips_report.specs.declared.show.Show.{Show};
ghost use Rattle.trips_answers.specs.Work.{Work};
ghost use Rattle.trips_answers.specs.Work.{Run, Evaluate, Compile, Explain, Listing, Trap, Draw, Record, Verify, Save, Four};
ghost use Rattle.trips_requests.specs.Table.{IsOneOf, IsWritten, Reports, Wrote};
ghost use Rattle.trips_requests.specs.Texts.{too_large_text};
ghost use Rattle.trips_eval_answers.specs.Evaluation.{eval_status, outcome_of, eval_report};
ghost use Rattle.machine_save.specs.Spelling.{SaveBytes};
ghost use Rattle.trips_draw_answers.specs.Drawn.{IsBlockDrawn};
ghost use Rattle.trips_grid_answers.specs.Report.{TellsRunFrom};
ghost use Rattle.trips_grid_answers.specs.Saved.{IsSavedRun};
ghost use Rattle.trips_trace_answers.specs.TraceAnswers.{IsVerdict, TellsTrace};
ghost use Rattle.trips_four_answers.specs.Report.{TellsFour};
ghost use Rattle.trips_answers.specs.declared.forms.FileForm.{FileForm};
ghost use Rattle.trips_answers.specs.declared.forms.FileForm.TheVariants as form;
ghost use Rattle.trips_answers.specs.Request.{Request, request_of};
ghost use Rattle.trips_requests.specs.Results.{result_status};
ghost use Rattle.trips_answers.specs.Asks.{IsServed, ended_report, nothing_shown};
ghost use Rattle.trips_answers.specs.Report.{TellsRun, full_report};
ghost use Rattle.trips_answers.specs.Done.{AreImagesFor, CanBeRun, IsImageIn, Makes, WritesImage};
ghost use Rattle.trips_answers.specs.Done.{TellsTrap, WritesListing};
ghost use Rattle.trips_answers.specs.Fours.{AreTold, Program, further_of};
ghost use Rattle.trips_answers.specs.Causes.{EndsWork, HasCauses, IsTooLarge, MayAnswer, RefusesUnfit};
ghost use Rattle.trips_answers.specs.Evaluated.{ResultTells, RunEndsAs};

use crate::answering::answer_words;
use std::alloc::Global;
use trips_answers::Status;
use trips_outside::{Files, Sink};

/// Does what the words ask, and answers the exit status. `words` are the command line without the
/// program's name.
pub fn trips_run<F: Files, K: Sink>(
    alloc: Global,
    words: &[String],
    files: &mut F,
    sink: &mut K,
) -> Status
    // Of an accepted program whose evaluation ends within n steps, exactly its output and its result are reported,
    // where the budget is at least 16 n + 16 blocks. It is served: the file and the input are told and within their
    // limits, neither the files nor the sink failed in this call, and memory was not refused.
    ensures headline { (most n : ℕ) (text input output : List ℕ) (value : ℤ) (steps : ℕ) (program : TypedProgram)
        → IsServed (request_of words.now) (F.held files.old) Run form.Source most nothing_shown text input
        (F.faults files.old) (F.faults files.new) (K.faults sink.old) (K.faults sink.new) result
        → IsAccepted text program → eval program input n ≡ Done output value steps → 16 * n + 16 ≤ most
        → (result ≡ result_status value)
        × Appended (K.written sink.old) (K.written sink.new) (ended_report output value) }

    // Where its frames are too large within n steps, a full stack is reported, with the output so far.
    ensures deep { (most n : ℕ) (text input output : List ℕ) (program : TypedProgram)
        → IsServed (request_of words.now) (F.held files.old) Run form.Source most nothing_shown text input
        (F.faults files.old) (F.faults files.new) (K.faults sink.old) (K.faults sink.new) result
        → IsAccepted text program → eval program input n ≡ Stopped Deep output → 16 * n + 16 ≤ most
        → (result ≡ Status.StackFull)
        × Appended (K.written sink.old) (K.written sink.new) (full_report output) }

    // Whatever its evaluation comes to and whatever is asked for behind the ending: there is an image that does what
    // the text means, and the machine's run of it is reported, with counts that are within the cost of its blocks, and
    // of the frames that were flushed as many as its statistics have under their causes.
    ensures text_run { (most : ℕ) (show : Show) (text input : List ℕ) (program : TypedProgram)
        → (call : IsServed (request_of words.now) (F.held files.old) Run form.Source most show text input
        (F.faults files.old) (F.faults files.new) (K.faults sink.old) (K.faults sink.new) result)
        → IsAccepted text program → (image : Image) × DoesText text call.asks.q.unroll image
        × Wrote (K.written sink.old) (K.written sink.new) (TellsRun image input most show result) }

    // So is the run of an image of good blocks, which an image's file or a target text holds.
    ensures image_run { (how : FileForm) (most : ℕ) (show : Show) (bytes input : List ℕ) (image : Image)
        → IsServed (request_of words.now) (F.held files.old) Run how most show bytes input
        (F.faults files.old) (F.faults files.new) (K.faults sink.old) (K.faults sink.new) result
        → IsImageIn how bytes image
        → Wrote (K.written sink.old) (K.written sink.new) (TellsRun image input most show result) }

    // An accepted program's evaluation is reported.
    ensures evaluation { (how : FileForm) (most : ℕ) (text input : List ℕ) (program : TypedProgram)
        → IsServed (request_of words.now) (F.held files.old) Evaluate how most nothing_shown text input
        (F.faults files.old) (F.faults files.new) (K.faults sink.old) (K.faults sink.new) result
        → IsAccepted text program → Reports result (K.written sink.old) (K.written sink.new)
        (eval_status (outcome_of program input most)) (eval_report text (outcome_of program input most)) }

    // An accepted program is compiled: the bytes of an image are written that does what the text means.
    ensures compiled { (how : FileForm) (most : ℕ) (show : Show) (text input : List ℕ) (program : TypedProgram)
        → (call : IsServed (request_of words.now) (F.held files.old) Compile how most show text input
        (F.faults files.old) (F.faults files.new) (K.faults sink.old) (K.faults sink.new) result)
        → IsAccepted text program → (bytes : List ℕ) × WritesImage text call.asks.q.unroll bytes
        × Reports result (K.written sink.old) (K.written sink.new) Status.Ended bytes }

    // Its listing is a target text of such an image, with comments.
    ensures listed { (how : FileForm) (most : ℕ) (show : Show) (text input : List ℕ) (program : TypedProgram)
        → (call : IsServed (request_of words.now) (F.held files.old) Listing how most show text input
        (F.faults files.old) (F.faults files.new) (K.faults sink.old) (K.faults sink.new) result)
        → IsAccepted text program → (listing : List ℕ) × WritesListing text call.asks.q.unroll listing
        × Reports result (K.written sink.old) (K.written sink.new) Status.Ended listing }

    // What `asm`, `dis` or `check` makes of its file, or `explain` tells of an accepted file, of a text of C with its
    // evaluation on the input within so many steps, is written, and nothing else.
    ensures made { (work : Work) (how : FileForm) (most : ℕ) (show : Show) (bytes input made : List ℕ)
        → IsServed (request_of words.now) (F.held files.old) work how most show bytes input
        (F.faults files.old) (F.faults files.new) (K.faults sink.old) (K.faults sink.new) result
        → Makes work most bytes input made
        → Reports result (K.written sink.old) (K.written sink.new) Status.Ended made }

    // Where a trap is asked for, how the machine's run ends of an image that does what the text means is told behind
    // what `explain` tells: the block at which it traps, and what there is to say of that.
    ensures trapped { (file : List ℕ) (how : FileForm) (most : ℕ) (show : Show) (text input told : List ℕ)
        → IsServed (request_of words.now) (F.held files.old) (Trap file) how most show text input
        (F.faults files.old) (F.faults files.new) (K.faults sink.old) (K.faults sink.new) result
        → Makes (Explain file) most text input told → (trap : List ℕ) × TellsTrap text input most trap
        × Reports result (K.written sink.old) (K.written sink.new) Status.Ended (told ++ trap) }

    // What `record` writes of an image of good blocks is the longest trace of the machine's run within so many
    // blocks, and nothing else; the status tells how that run ends.
    ensures recorded { (how : FileForm) (most : ℕ) (show : Show) (bytes input : List ℕ) (image : Image)
        → IsServed (request_of words.now) (F.held files.old) Record how most show bytes input
        (F.faults files.old) (F.faults files.new) (K.faults sink.old) (K.faults sink.new) result
        → IsImageIn form.Image bytes image
        → Wrote (K.written sink.old) (K.written sink.new) (TellsTrace image input most result) }

    // `verify` writes `verified B blocks` exactly where the trace's file holds the trace of the machine's run for B
    // blocks, at most 100,000, and else the refusal with its first fault.
    ensures verified { (how : FileForm) (most : ℕ) (show : Show) (bytes input trace : List ℕ) (image : Image)
        → (call : IsServed (request_of words.now) (F.held files.old) Verify how most show bytes input
        (F.faults files.old) (F.faults files.new) (K.faults sink.old) (K.faults sink.new) result)
        → F.held files.old call.asks.q.trace ≡ Some trace → IsImageIn form.Image bytes image
        → Wrote (K.written sink.old) (K.written sink.new) (IsVerdict image input trace result) }

    // `save` writes the one spelling of an image of good blocks and of the state that its run has come to behind so
    // many blocks, exactly where none of these ends the run, makes system call 4 or traps; else it is over.
    ensures saved { (how : FileForm) (most : ℕ) (show : Show) (bytes input : List ℕ) (image : Image)
        → IsServed (request_of words.now) (F.held files.old) Save how most show bytes input
        (F.faults files.old) (F.faults files.new) (K.faults sink.old) (K.faults sink.new) result
        → IsImageIn how bytes image
        → Wrote (K.written sink.old) (K.written sink.new) (IsSavedRun image input most result) }

    // Of an accepted text it saves the run of an image that does what the text means.
    ensures saved_text { (most : ℕ) (show : Show) (text input : List ℕ) (program : TypedProgram)
        → (call : IsServed (request_of words.now) (F.held files.old) Save form.Source most show text input
        (F.faults files.old) (F.faults files.new) (K.faults sink.old) (K.faults sink.new) result)
        → IsAccepted text program → (image : Image) × DoesText text call.asks.q.unroll image
        × Wrote (K.written sink.old) (K.written sink.new) (IsSavedRun image input most result) }

    // `resume` of the bytes that save an image and a state reports the machine's run from that state, whose trace
    // begins empty. With `runs_go_on` of `machine_runs`: two parts are the whole.
    ensures resumed { (most : ℕ) (show : Show) (bytes input : List ℕ) (image : Image) (t : State)
        → IsServed (request_of words.now) (F.held files.old) Run form.Saved most show bytes input
        (F.faults files.old) (F.faults files.new) (K.faults sink.old) (K.faults sink.new) result
        → SaveBytes image t bytes → Wrote (K.written sink.old) (K.written sink.new)
        (TellsRunFrom image.blocks (record t { trace = [] }) most show result) }

    // `four` reports the runs of four files at once, each as it is alone: there are images that runs of the files
    // have, and each one's run on the input is told. The cycles are within what the four may cost together. The
    // further files are told and within their limits too.
    ensures fours { (how : FileForm) (most : ℕ) (show : Show) (bytes input : List ℕ) (others : List Program)
        → (call : IsServed (request_of words.now) (F.held files.old) Four how most show bytes input
        (F.faults files.old) (F.faults files.new) (K.faults sink.old) (K.faults sink.new) result)
        → AreTold (further_of (F.held files.old) call.asks.q) others → CanBeRun ((how, bytes) ∷ others)
        → (images : List Image) × AreImagesFor call.asks.q.unroll ((how, bytes) ∷ others) images
        × Wrote (K.written sink.old) (K.written sink.new) (TellsFour images input most show.cycles result) }

    // `draw` writes the drawing of the last of so many blocks of an image of good blocks, and nothing else, and
    // refuses a number that no block has.
    ensures drawn { (how : FileForm) (most : ℕ) (show : Show) (bytes input : List ℕ) (image : Image)
        → IsServed (request_of words.now) (F.held files.old) Draw how most show bytes input
        (F.faults files.old) (F.faults files.new) (K.faults sink.old) (K.faults sink.new) result
        → IsImageIn how bytes image
        → Wrote (K.written sink.old) (K.written sink.new) (IsBlockDrawn image.blocks (most - 1) result) }

    // Of an accepted text it draws a block of an image that does what the text means.
    ensures drawn_text { (most : ℕ) (show : Show) (text input : List ℕ) (program : TypedProgram)
        → (call : IsServed (request_of words.now) (F.held files.old) Draw form.Source most show text input
        (F.faults files.old) (F.faults files.new) (K.faults sink.old) (K.faults sink.new) result)
        → IsAccepted text program → (image : Image) × DoesText text call.asks.q.unroll image
        × Wrote (K.written sink.old) (K.written sink.new) (IsBlockDrawn image.blocks (most - 1) result) }

    // A file or an input with too many bytes is refused with the one report on these.
    ensures too_large { (q : Request) → request_of words.now ≡ Some q → IsTooLarge q (F.held files.old)
        → Undisturbed (F.faults files.old) (F.faults files.new) (K.faults sink.old) (K.faults sink.new)
        → result ≢ Status.Memory
        → Reports result (K.written sink.old) (K.written sink.new) Status.Refused too_large_text }

    // Words that make no request, and a file with which the work cannot be done, are refused.
    ensures unfit { RefusesUnfit (request_of words.now) (F.held files.old) result }

    // And each refusal and each failure has its cause.
    ensures causes { HasCauses (request_of words.now) (F.held files.old)
        (Rose (F.faults files.old) (F.faults files.new)) (Rose (K.faults sink.old) (K.faults sink.new))
        (K.written sink.old) (K.written sink.new) result }

    // A status that tells an end is that of the work with the bytes that the names hold, as far as they are told.
    ensures ends { IsOneOf result
        (Status.Ended ∷ Status.Budget ∷ Status.StackFull ∷ Status.Trap ∷ Status.Undefined ∷ Status.Aborted ∷ [])
        → (q : Request) × (request_of words.now ≡ Some q) × EndsWork (F.held files.old) q result }

    // Of the run of a text it says what the evaluation comes to, whatever the budget.
    ensures text_ends { (q : Request) → request_of words.now ≡ Some q → q.work ≡ Run → q.form ≡ form.Source
        → IsOneOf result (Status.Ended ∷ Status.Budget ∷ Status.StackFull ∷ Status.Trap ∷ Status.Aborted ∷ [])
        → RunEndsAs (F.held files.old) q result }

    // And a result that is reported is that of the evaluation, or the evaluation is undefined.
    ensures result_tells { (q : Request) → request_of words.now ≡ Some q → q.work ≡ Run → q.form ≡ form.Source
        → result ≡ Status.Ended → ResultTells (F.held files.old) q (K.written sink.old) (K.written sink.new) }

    // The table: whatever comes, nothing, a first part or all of the report of an answer to the request is written.
    ensures answered { IsWritten (MayAnswer (request_of words.now) (F.held files.old)
        (Rose (F.faults files.old) (F.faults files.new))) (K.written sink.old) (K.written sink.new)
        (Rose (K.faults sink.old) (K.faults sink.new)) result }

    // What names hold stays, and no count of faults falls.
    ensures kept { F.held files.new ≡ F.held files.old }
    ensures reads_later { F.faults files.old ≤ F.faults files.new }
    ensures writes_later { K.faults sink.old ≤ K.faults sink.new }
{
    answer_words(alloc, words, files, sink)
}
