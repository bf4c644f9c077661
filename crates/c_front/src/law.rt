ghost use Rattle.c_front.specs.inside.Laws.{AcceptedOnce, EveryTextAnswers, NotBoth, RefusedOnce};

/// A text has at most one typed program. It does nothing when it runs.
pub fn accepted_once()
    ensures law { AcceptedOnce }
{}

/// A text is accepted or refused, not both, and by one stage with one fault. It does nothing when
/// it runs.
pub fn one_stage_answers()
    ensures some { EveryTextAnswers }
    ensures not_both { NotBoth }
    ensures once { RefusedOnce }
{}
