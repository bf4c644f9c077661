ghost use Rattle.hyper_narrow.specs.inside.Laws.{CleanAlike, KeepsWords, WholeBlocksMeanSo, WholeProgramsRunSo};

/// A program runs as it does where every register outlasts each of its blocks.
pub fn whole_programs_run_so()
    ensures { WholeProgramsRunSo }
{}

/// A flow block means a hyper block where it means the block that every register outlasts, and does what that does in
/// order.
pub fn whole_blocks_mean_the_same()
    ensures { WholeBlocksMeanSo }
{}

/// Where two lists of acts have the same in them, one is clean where the other is.
pub fn what_does_the_same_is_clean_alike()
    ensures { CleanAlike }
{}

/// A narrowed block that fits leaves words where it begins with words.
pub fn narrowed_blocks_keep_words()
    ensures { KeepsWords }
{}
