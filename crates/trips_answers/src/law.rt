//! What the report of a run says of a text's evaluation, over the definitions alone.

ghost use Rattle.trips_answers.specs.inside.Laws.{TellsDeep, TellsDone};

/// The report of the run of an image that does what a text means, whatever is shown behind its ending, tells the
/// evaluation of the text's program, where that ends within the budget: so `headline` and `deep` of `trips_run` hold
/// of what its `text_run` says. It does nothing when it runs.
pub fn reports_tell_evaluations()
    ensures done { TellsDone }
    ensures deep { TellsDeep }
{}
