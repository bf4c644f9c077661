//! What holds of the benchmark's text.

ghost use Rattle.bench_laws.specs.inside.Laws.{BenchIsAccepted, BenchIsNotRefused, BenchIsShort, BenchEnds};

/// The benchmark's text is a program of the profile.
pub fn bench_is_accepted()
    ensures law { BenchIsAccepted }
{}

/// No stage of the front end refuses it.
pub fn bench_is_not_refused()
    ensures law { BenchIsNotRefused }
{}

/// It has no more bytes than a source text may have.
pub fn bench_is_short()
    ensures law { BenchIsShort }
{}

/// Its evaluation is done, with the output, the result and the steps that `specs/inside/Values.antt` says.
pub fn bench_ends()
    ensures law { BenchEnds }
{}
