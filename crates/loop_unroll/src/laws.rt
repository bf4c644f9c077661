ghost use Rattle.loop_unroll.specs.inside.Laws.{UnrollsBlocks, UnrollsCounts, UnrollsPrograms, UnrollsRuns};
ghost use Rattle.loop_unroll.specs.inside.Laws.{AsksForEight, StaysOnce, StoppedStays, WholesStand};

/// Whatever is asked for, and from whatever block and machine on: what b blocks of a program come to, no more than b
/// blocks of the unrolled one come to, and no fewer than b by the most copies: the output while the run goes on, and
/// at its end all registers, memory and the last exit. So with and without the check of faults.
pub fn unrolled_programs_run()
    ensures runs { UnrollsRuns }
    ensures programs { UnrollsPrograms }
{}

/// A run of a hyper program stands as what it comes to.
pub fn wholes_stand()
    ensures wholes { WholesStand }
    ensures stopped { StoppedStays }
{}

/// An unrolled program has as many blocks, with the same exits; they fit, and have no fewer filled if-items.
pub fn unrolled_programs_are_blocks()
    ensures blocks { UnrollsBlocks }
    ensures eight { AsksForEight }
    ensures one { StaysOnce }
{}

/// A self loop that is run m times one after another is run m / t times, rounded up, where t copies of its turn were
/// asked for.
pub fn unrolled_loops_run_fewer()
    ensures { UnrollsCounts }
{}
