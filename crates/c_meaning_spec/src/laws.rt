ghost use Rattle.c_meaning_spec.specs.inside.Laws.{StaysWithMoreSteps, StepsAreLeast, OutputGoesOn, MeansByParts};
ghost use Rattle.c_meaning_spec.specs.inside.Laws.{ExitsAsMainReturns, UndefinedIsTold, RuleIsBroken};
ghost use Rattle.c_meaning_spec.specs.inside.TellingLaws.{TellsByParts, TellsAlike, GoingOnTellsNothing};
ghost use Rattle.c_meaning_spec.specs.inside.TellingLaws.{StoppingIsPlaced, OutcomeIsTold, FaultIsTold};

/// A result other than More stays with more steps.
pub fn result_stays_with_more_steps()
    ensures { StaysWithMoreSteps }
{}

/// The steps of Done are the least stock that gives it: with fewer the answer is More.
pub fn steps_of_done_are_least()
    ensures { StepsAreLeast }
{}

/// What was put out within some steps is the beginning of what is put out within more.
pub fn output_goes_on()
    ensures { OutputGoesOn }
{}

/// What a task means is what it does with the meaning of its parts: the one equation that a proof
/// over evaluations needs.
pub fn task_means_by_its_parts()
    ensures { MeansByParts }
{}

/// `exit` of an int ends the evaluation as main does that returns it (C17 5.1.2.2.3).
pub fn exits_as_main_returns()
    ensures { ExitsAsMainReturns }
{}

/// An evaluation that is undefined has a reason, and an operation that has no value breaks the rule that is told.
pub fn undefined_has_its_reason()
    ensures told { UndefinedIsTold }
    ensures rule { RuleIsBroken }
{}

/// What a task means with its places is what it does with its parts with theirs: the one equation that a proof over
/// evaluations with places needs.
pub fn task_tells_by_its_parts()
    ensures { TellsByParts }
{}

/// With its places a task comes to the same, but for what is told of where it stopped; going on tells nothing, and an
/// expression that stops tells a place.
pub fn places_are_told_where_it_stops()
    ensures alike { TellsAlike }
    ensures on { GoingOnTellsNothing }
    ensures placed { StoppingIsPlaced }
{}

/// The call of main with its places comes to the outcome of the evaluation, and to its reason.
pub fn run_with_places_is_the_evaluation()
    ensures outcome { OutcomeIsTold }
    ensures fault { FaultIsTold }
{}
