//! Laws of what a report shows; each function's clause is the law.

ghost use Rattle.std.specs.Prelude.{◌≡◌, List, length};
ghost use Rattle.trips_isa.specs.declared.run.Traced.{Traced};
ghost use Rattle.trips_report.specs.Commits.{above, commits_of, sum_below};

/// The numbers of the lines of committed blocks add up to how many blocks were committed.
pub fn commits_add_up()
    ensures { (trace : List Traced) → sum_below (λ k. commits_of k trace) (above trace) ≡ length trace }
{}
