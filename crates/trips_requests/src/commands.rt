//! What a command line can ask for, and the limits of its numbers.

ghost use Rattle.std.specs.Prelude.{◌≡◌};
ghost use Rattle.trips_requests.specs.Limits as limits;

/// What is done with a file.
#[derive(Clone, Copy, Debug, PartialEq, Eq)]
pub enum Command {
    Run,
    Evaluate,
    Compile,
    /// compiles C, and writes target text in which comments say what comes from where
    List,
    Assemble,
    Disassemble,
    Check,
    Explain,
    /// explains C, and tells from where in it the block comes at which its run traps
    Trap,
    Record,
    Verify,
    Save,
    Resume,
    Four,
    Draw,
}

/// What the first word of a command line names. The benchmark is a run of a text that is made.
#[derive(Clone, Copy, Debug, PartialEq, Eq)]
pub enum Verb {
    Run,
    Bench,
    Evaluate,
    Compile,
    Assemble,
    Disassemble,
    Check,
    Explain,
    Record,
    Verify,
    Save,
    Resume,
    Four,
    Draw,
}

/// What is done with a file that holds no C.
#[derive(Clone, Copy, Debug, PartialEq, Eq)]
pub enum Tool {
    Assemble,
    Disassemble,
    Check,
}

/// The most functions that the text of the benchmark may have.
pub const MOST_FUNCTIONS: u32 = 64;

/// The most blocks or steps that may be asked for.
pub const MOST_COUNT: u32 = 4_000_000;

/// The greatest seed, and the greatest number by which blocks may be placed.
pub const MOST_SEED: u64 = 18_446_744_073_709_551_615;

/// The most turns of a loop that a block of a compiled program may be asked to hold.
pub const MOST_TURNS: u32 = 8;

/// How many frames there are, all of which may be in flight where no fewer are asked for.
pub const MOST_FRAMES: u32 = 8;

/// How many blocks or steps are taken where none are asked for.
pub const DEFAULT_COUNT: u32 = 1_000_000;

/// The most blocks that a trace file may have.
pub const MOST_RECORDED: u32 = 100_000;

/// How many blocks are recorded where none are asked for.
pub const DEFAULT_RECORDED: u32 = 10_000;

/// The greatest number of a block that may be drawn.
pub const MOST_DRAWN: u64 = 3_999_999;

/// The greatest number of a cycle: no run of as many blocks as may be asked for has a later one.
pub const MOST_CYCLE: u64 = 165_888_000_000;

/// The limits of the code are those of the definitions. It does nothing when it runs.
pub fn constants_are_the_definitions()
    ensures functions { MOST_FUNCTIONS ≡ limits.most_functions }
    ensures count { MOST_COUNT ≡ limits.most_count }
    ensures seed { MOST_SEED ≡ limits.most_seed }
    ensures turns { MOST_TURNS ≡ limits.most_turns }
    ensures frames { MOST_FRAMES ≡ limits.most_frames }
    ensures default { DEFAULT_COUNT ≡ limits.default_count }
    ensures recorded { MOST_RECORDED ≡ limits.most_recorded }
    ensures default_recorded { DEFAULT_RECORDED ≡ limits.default_recorded }
    ensures drawn { MOST_DRAWN ≡ limits.most_drawn }
    ensures cycle { MOST_CYCLE ≡ limits.most_cycle }
{}

/// Cycles of a run, the first of which is cycle 1: those from one to another.
#[derive(Clone, Copy, Debug, PartialEq, Eq)]
pub struct Cycles {
    /// from 1
    pub first: u64,
    /// no cycle before the first
    pub last: u64,
}

/// What the table of the predictor holds as a run begins.
#[derive(Clone, Copy, Debug, PartialEq, Eq)]
pub enum PredictorStart {
    /// the exits that the seed draws
    Seeded,
    /// the exit 0 everywhere
    Zero,
    /// nothing is asked of it: a block is fetched once the one before has committed
    Unused,
}

/// For how long parcels are held in a run.
#[derive(Clone, Copy, Debug, PartialEq, Eq)]
pub enum WeatherKind {
    /// as the seed draws it, 0 to 3 cycles each
    Seeded,
    /// none is held
    Calm,
    /// each for 3 cycles
    Worst,
}

/// A request.
#[derive(Clone, Copy, Debug)]
pub struct Asked<'a> {
    pub command: Command,
    pub file: &'a str,
    /// the trace's file of `verify`, or the second of `four`
    pub second: Option<&'a str>,
    /// the third and the fourth of `four` alone
    pub third: Option<&'a str>,
    pub fourth: Option<&'a str>,
    /// how many functions the text of the benchmark has, where that is run in place of a file
    pub functions: Option<u32>,
    /// the name of the input, if it has one
    pub input: Option<&'a str>,
    /// how many blocks or steps it may take; the block that is drawn is the last of so many
    pub most: u32,
    /// the number by which compiled blocks are placed, if one is said
    pub place: Option<u64>,
    /// how many turns of a loop a compiled block may hold, from 1 to 8
    pub unroll: u8,
    /// the seed of the predictor and of the network's delays
    pub seed: u64,
    /// what the predictor's table holds as a run begins
    pub predictor: PredictorStart,
    /// for how long parcels are held
    pub weather: WeatherKind,
    /// how many frames may be in flight, from 1 to 8
    pub frames: u8,
    /// whether the registers are shown
    pub regs: bool,
    /// whether the committed blocks are shown
    pub trace: bool,
    /// whether the counts of the grid are shown
    pub cycles: bool,
    /// whether the statistics of the run are shown
    pub stats: bool,
    /// the cycles whose events are shown, if any are; of no request with statistics
    pub events: Option<Cycles>,
}
