ghost use Rattle.std.specs.Prelude.{◌*◌, suc};
ghost use Rattle.c_compile_laws.specs.Bounds.{HasBounds};
ghost use Rattle.c_compile_laws.specs.inside.Laws.{GuardsSmallIfs, OfCompiled};
ghost use Rattle.c_compile_laws.specs.inside.Limits.{TakesCuts};
ghost use Rattle.c_compile_laws.specs.Runs.{DoesDeep, DoesFinished, DoesUnfinished, EndsAsEvaluated};
ghost use Rattle.c_compile_laws.specs.Runs.{NeverEnds};

/// The image of a flat program that means a typed program does what the program means, in whatever slots its
/// instructions stand, wherever its blocks are cut, and however many turns of a self loop a block does: with w
/// besides one, a block does so many times the steps. It does nothing when it runs.
pub fn compiled_images_mean_programs()
    ensures finished { OfCompiled (λ P t w p i. DoesFinished P i) }
    ensures deep { OfCompiled (λ P t w p i. DoesDeep P i) }
    ensures unfinished { OfCompiled (λ P t w p i. DoesUnfinished (suc w * t) P i) }
    ensures ends { OfCompiled (λ P t w p i. EndsAsEvaluated (suc w * t) P i) }
    ensures endless { OfCompiled (λ P t w p i. NeverEnds P i) }
    ensures bounds { OfCompiled (λ P t w p i. HasBounds t p i) }
{}

/// It has at least as many guarded instructions other than branches as the flat program has small ifs. It
/// does nothing when it runs.
pub fn compiled_images_guard_small_ifs()
    ensures { GuardsSmallIfs }
{}

/// Where every place is cut, no pass refuses a block for its size, and each is good. It does nothing when
/// it runs.
pub fn cut_programs_are_taken()
    ensures { TakesCuts }
{}
