//! Laws of the window, over its definitions alone; each function's clause is the law.
//!
//! Laws of progress, over the window's definitions alone; each function's clause is the law.
ghost use Rattle.std.specs.Prelude.{◌≡◌, ◌<◌, ◌≤◌, ◌==◌, ℕ, suc, Bool, true, false, List, [], ◌∷◌, length, Option};
ghost use Rattle.std.specs.Prelude.{Some, slice_set, take, ◌≢◌, ◌↔◌, ◌⊎◌, ◌+◌, ◌-◌, ◌*◌, ◌||◌, ◌++◌, None};
ghost use Rattle.std.specs.List.{list_any};
ghost use Rattle.trips_isa.specs.declared.block.Block.{Block};
ghost use Rattle.trips_isa.specs.declared.run.Stepped.TheVariants.{Went, Trap};
ghost use Rattle.trips_isa.specs.TrapCauses.{cause_of};
ghost use Rattle.trips_isa.specs.Stores.{data_size};
ghost use Rattle.trips_isa.specs.Outcomes.{unless};
ghost use Rattle.trips_isa.specs.Machine.{come_to, start, State, runs};
ghost use Rattle.trips_isa.specs.declared.block.Token.{Token};
ghost use Rattle.block_cases.specs.Orders.{NoneBelow};
ghost use Rattle.block_cases.specs.inside.Orders.{IsLeast};
ghost use Rattle.commit_flush_spec.specs.Causes.{Cause, Done, NotNow, Happened};
ghost use Rattle.commit_flush_spec.specs.Frames.{Frame, at, first_read_place, fresh, slot_node, token_places};
ghost use Rattle.commit_flush_spec.specs.Older.{Older, after_all, committed};
ghost use Rattle.commit_flush_spec.specs.inside.Numbered.{by_age, seen_at, AllThere};
ghost use Rattle.commit_flush_spec.specs.Dropping.{left_by, store_left, exit_left};
ghost use Rattle.commit_flush_spec.specs.inside.Dropping.{stored_alone, exited_alone};
ghost use Rattle.commit_flush_spec.specs.Dropping.{none_left};
ghost use Rattle.commit_flush_spec.specs.inside.Dropping.{unchanged};
ghost use Rattle.commit_flush_spec.specs.Memory.{store, can_load, can_store};
ghost use Rattle.commit_flush_spec.specs.Ends.{exit, outputs, cause_held, complete};
ghost use Rattle.commit_flush_spec.specs.InFlight.{flush, Window, alone, change, in_flight, opened, on_frame};
ghost use Rattle.commit_flush_spec.specs.Window.{Event, Flush, Commit, can, done, happens, plays};
ghost use Rattle.commit_flush_spec.specs.inside.Invariant.{AllGood};
ghost use Rattle.commit_flush_spec.specs.Laws.{TakesSteps};
ghost use Rattle.commit_flush_spec.specs.inside.Laws.{AllFree, AreNumbers, IsBeginning, WindowOk};
ghost use Rattle.commit_flush_spec.specs.Sending.{send};
ghost use Rattle.commit_flush_spec.specs.Dataflow.{can_read, can_fire};
ghost use Rattle.commit_flush_spec.specs.inside.NextEvent.{is_done, lowest, next_event};
ghost use Rattle.commit_flush_spec.specs.inside.Observers.{is_asked, is_ready, is_unread};
ghost use Rattle.commit_flush_spec.specs.inside.Work.{anew, none_guessed, price, work};
ghost use Rattle.commit_flush_spec.specs.inside.Driving.{driven, drives};
ghost use Rattle.commit_flush_spec.specs.DrivingLaws.{is_step_of};
ghost use Rattle.commit_flush_spec.specs.inside.DrivingLaws.{is_guess, IsNextIn, HasGenerations, IsFilled};
ghost use Rattle.commit_flush_spec.specs.inside.DrivingLaws.{MayFill, StaysOldest};

/// Each event keeps the window's invariant, whatever the event and whether or not it is done.
pub fn events_keep_the_invariant()
    ensures { (blocks : List Block) (budget : ℕ) (e : Event) (w : Window) → AllGood blocks
        → WindowOk blocks budget w → WindowOk blocks budget (happens blocks budget e w) }
{}

/// Law commits are steps: whatever events come, the committed state is the machine's after as many
/// steps as the trace grew by.
pub fn commits_are_steps()
    ensures { (blocks : List Block) (budget : ℕ) (es : List Event) (w : Window) → AllGood blocks
        → WindowOk blocks budget w → w.over ≡ Went
        → TakesSteps blocks w.state (plays blocks budget es w) }
{}

/// Law one token: after any events no token on its way finds another one at its place.
pub fn tokens_find_free_places()
    ensures { (blocks : List Block) (budget : ℕ) (es : List Event) (w : Window) → AllGood blocks
        → WindowOk blocks budget w → AllFree (plays blocks budget es w).frames }
{}

/// The window opens right: with no frame in flight, on the state that a run starts from.
pub fn windows_open_right()
    ensures { (blocks : List Block) (budget : ℕ) (bytes input : List ℕ) → 0 < length blocks
        → length bytes ≤ data_size → WindowOk blocks budget (opened (start bytes input)) }
{}

/// Law events exact: what is refused leaves the window as it was, and what is not does what its row
/// says.
pub fn events_are_exact()
    ensures refused { (blocks : List Block) (budget : ℕ) (e : Event) (w : Window) (c : Cause)
        → can blocks budget e w ≡ NotNow c → happens blocks budget e w ≡ w }
    ensures taken { (blocks : List Block) (budget : ℕ) (e : Event) (w : Window)
        → can blocks budget e w ≡ Done → happens blocks budget e w ≡ done blocks e w }
    ensures state { (blocks : List Block) (budget : ℕ) (e : Event) (w : Window)
        → (e ≡ Commit → ⊥) → (happens blocks budget e w).state ≡ w.state }
{}

/// Law flush leaves nothing: the flushed frame is in flight no more, nor is any younger one.
pub fn flush_leaves_nothing()
    ensures { (blocks : List Block) (budget n : ℕ) (w : Window)
        → can blocks budget (Flush n) w ≡ Done
        → (in_flight n (happens blocks budget (Flush n) w).frames ≡ false)
        × IsBeginning (happens blocks budget (Flush n) w).frames w.frames }
{}

/// Law commit applies outputs: a commit changes the state by the effects that the oldest frame
/// holds, followed by the system call; with a marked output it traps, and no frame is left.
pub fn commit_applies_outputs()
    ensures applied { (blocks : List Block) (budget : ℕ) (w : Window) (f : Frame) (fs : List Frame)
        → w.frames ≡ f ∷ fs → can blocks budget Commit w ≡ Done
        → ((happens blocks budget Commit w).state, (happens blocks budget Commit w).over)
        ≡ come_to f.code.writes.items (unless (cause_held f) (outputs f)) w.state }
    ensures trapped { (blocks : List Block) (budget c : ℕ) (w : Window) (f : Frame) (fs : List Frame)
        → w.frames ≡ f ∷ fs → can blocks budget Commit w ≡ Done → cause_held f ≡ suc c
        → happens blocks budget Commit w ≡ record w { over = Trap (cause_of (suc c)); frames = [] } }
{}

/// A change of one frame is the same where frames are kept by number, with an order of age.
pub fn frames_may_be_kept_by_number()
    ensures { (slots : List (Option Frame)) (order : List ℕ) → AreNumbers order
        → length slots ≡ 8 → ((m : ℕ) (f : Frame) → at slots m ≡ Some f → f.number ≡ m)
        → (does : Older → Frame → Frame) (o : Older) (n : ℕ) (f : Frame) → at slots n ≡ Some f
        → list_any (λ m. m == n) order ≡ true
        → change (alone does) o (by_age slots order) n
        ≡ by_age (slice_set slots n (Some (does (seen_at o (by_age slots order) n) f))) order }
{}

/// A store, an exit and a flush change one frame alone, and leave the beginning of the frames by age; where frames
/// are kept by number, that is the beginning of their order.
pub fn flushes_cut_the_order()
    ensures stores { (m : ℕ) (o : Older) (fs : List Frame) (n : ℕ) → change (store m) o fs n
        ≡ take (left_by (store_left m) o fs n) (change (alone (stored_alone m)) o fs n) }
    ensures exits { (blocks : List Block) (o : Older) (fs : List Frame) (n : ℕ) → change (exit blocks) o fs n
        ≡ take (left_by (exit_left blocks) o fs n) (change (alone (exited_alone blocks)) o fs n) }
    ensures flushes { (o : Older) (fs : List Frame) (n : ℕ) → change flush o fs n
        ≡ take (left_by none_left o fs n) (change (alone unchanged) o fs n) }
    ensures order { (slots : List (Option Frame)) (order : List ℕ) (k : ℕ) → AllThere slots order
        → take k (by_age slots order) ≡ by_age slots (take k order) }
{}

/// Law never stuck: where the oldest frame runs and lacks an output, one of Read, Fire, Deliver, Load, Store and Exit
/// of it would be done; and one that answers no load before a store that it may have to see.
pub fn oldest_frames_are_never_stuck()
    ensures { (blocks : List Block) (budget : ℕ) (w : Window) (f : Frame) (fs : List Frame) → AllGood blocks
        → WindowOk blocks budget w → w.over ≡ Went → w.frames ≡ f ∷ fs → f.sealed ≡ false → complete f ≡ false
        → (e : Event) × (is_step_of f.number e ≡ true) × (is_guess f e ≡ false)
        × (can blocks budget e w ≡ Done) }
{}

/// The searches of the next event find the least number that passes, and none exactly where none passes.
pub fn searches_find_the_least()
    ensures some { (test : ℕ → Bool) (n j : ℕ) → (lowest test n 0 ≡ Some j) ↔ IsLeast test n j }
    ensures none { (test : ℕ → Bool) (n : ℕ) → (lowest test n 0 ≡ None) ↔ NoneBelow test n }
{}

/// The next event would be done. There is none exactly where the run has ended or the budget's commits were made.
pub fn next_events_are_done()
    ensures done { (blocks : List Block) (budget : ℕ) (e : Event) (w : Window) → WindowOk blocks budget w
        → MayFill w → next_event budget w ≡ Some e → can blocks budget e w ≡ Done }
    ensures which { (budget : ℕ) (e : Event) (w : Window) → next_event budget w ≡ Some e
        → IsNextIn w.frames w.state e }
    ensures none { (blocks : List Block) (budget : ℕ) (w : Window) → AllGood blocks → WindowOk blocks budget w
        → (next_event budget w ≡ None) ↔ ((w.over ≢ Went) ⊎ (budget ≤ length w.state.trace)) }
{}

/// Each next event lowers the work that is left.
pub fn next_events_lower_the_work()
    ensures { (blocks : List Block) (budget : ℕ) (e : Event) (w : Window) → AllGood blocks → WindowOk blocks budget w
        → MayFill w → next_event budget w ≡ Some e → work budget (happens blocks budget e w) < work budget w }
{}

/// Driving ends: after as many next events as work was left there is none any more. What it does is to play some
/// events, and while it goes on these are at most a frame's price for each block that was committed and for the next.
/// Where driving began without a frame in flight a block takes fewer. It may be done one event after another.
pub fn driving_ends()
    ensures ends { (blocks : List Block) (budget : ℕ) (w : Window) → AllGood blocks → WindowOk blocks budget w
        → HasGenerations budget w → next_event budget (driven blocks budget w) ≡ None }
    ensures steps { (blocks : List Block) (budget : ℕ) (e : Event) (w : Window) → AllGood blocks
        → WindowOk blocks budget w → HasGenerations budget w → next_event budget w ≡ Some e
        → (driven blocks budget w ≡ driven blocks budget (happens blocks budget e w))
        × HasGenerations budget (happens blocks budget e w) }
    ensures rests { (blocks : List Block) (budget : ℕ) (w : Window) → next_event budget w ≡ None
        → driven blocks budget w ≡ w }
    ensures plays { (blocks : List Block) (budget n : ℕ) (w : Window)
        → (es : List Event) × (drives blocks budget n w ≡ plays blocks budget es w) }
    ensures pace { (blocks : List Block) (budget n : ℕ) (w : Window) → AllGood blocks → WindowOk blocks budget w
        → HasGenerations budget w → next_event budget (drives blocks budget n w) ≢ None
        → n ≤ (length (drives blocks budget n w).state.trace - length w.state.trace + 1) * price }
    ensures alone { (blocks : List Block) (budget n : ℕ) (w : Window) → AllGood blocks → WindowOk blocks budget w
        → HasGenerations budget w → w.frames ≡ [] → next_event budget (drives blocks budget n w) ≢ None
        → n ≤ (length (drives blocks budget n w).state.trace - length w.state.trace + 1) * suc anew }
{}

/// Driving is running: the window comes to the state and the answer of the machine's run within what is left of the
/// budget.
pub fn driving_is_running()
    ensures { (blocks : List Block) (budget : ℕ) (w : Window) → AllGood blocks → WindowOk blocks budget w
        → HasGenerations budget w → w.over ≡ Went
        → ((driven blocks budget w).state, (driven blocks budget w).over)
        ≡ runs blocks w.state (budget - length w.state.trace) }
{}

/// A next event flushes the oldest frame only where a load of it was guessed, and guesses none itself; of a frame
/// that has just been filled none is.
pub fn driving_flushes_only_guesses()
    ensures kept { (blocks : List Block) (budget : ℕ) (e : Event) (w : Window) (f : Frame) (fs : List Frame)
        → AllGood blocks → WindowOk blocks budget w → MayFill w → next_event budget w ≡ Some e
        → w.frames ≡ f ∷ fs → f.sealed ≡ false → none_guessed f ≡ true
        → StaysOldest (happens blocks budget e w).frames }
    ensures filled { (n k : ℕ) (b : Block) → none_guessed (fresh n k b) ≡ true }
{}

/// What the window tells of a frame beforehand is what its events are answered: Fire of a slot, Read of a read of the
/// oldest frame, Load or Store of a number.
pub fn observers_tell()
    ensures ready { (o : Older) (f : Frame) (s : ℕ) → is_ready f s ≡ is_done (can_fire s o f) }
    ensures unread { (s : State) (f : Frame) (r : ℕ) → is_unread f r ≡ is_done (can_read r (committed s) f) }
    ensures asked { (o : Older) (f : Frame) (n : ℕ)
        → is_asked f n ≡ (is_done (can_load n o f) || is_done (can_store n o f)) }
{}

/// An event of a frame is answered by what that frame sees behind the older ones, and leaves these as they are.
pub fn events_act_at_their_frame()
    ensures answered { (none : Happened) (asks : Older → Frame → Happened) (fs : List Frame) (o : Older) (f : Frame)
        (gs : List Frame) → in_flight f.number fs ≡ false
        → on_frame none asks o (fs ++ f ∷ gs) f.number ≡ asks (after_all fs o) f }
    ensures changed { (does : Older → Frame → List Frame → List Frame) (fs : List Frame) (o : Older) (f : Frame)
        (gs : List Frame) → in_flight f.number fs ≡ false
        → change does o (fs ++ f ∷ gs) f.number ≡ fs ++ does (after_all fs o) f gs }
{}

/// A node that sends its token fills the places of its targets, and no others: an instruction as it fires or as its
/// load is answered, and a read.
pub fn tokens_fill_their_places()
    ensures slots { (f : Frame) (s : ℕ) (t : Token) → length f.places ≡ token_places → s < 128
        → (q : ℕ) → IsFilled f (send (slot_node f.code s) (2 * s) (Some t) f) (2 * s) q }
    ensures reads { (f : Frame) (r : ℕ) (t : Token) → length f.places ≡ token_places → r < 32
        → (q : ℕ) → IsFilled f (send r (first_read_place + 2 * r) (Some t) f) (first_read_place + 2 * r) q }
{}
