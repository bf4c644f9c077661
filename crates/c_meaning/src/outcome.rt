use base::Items;
use c_meaning_spec::Fault;

/// A list of bytes.
pub type Bytes = Items<u8>;

/// How an evaluation ends within some steps: it has not ended, it meets an undefined operation, the
/// frames of its active functions would pass 1,048,576 bytes, or main returns.
///
/// `result` is what main returns, an int, or what a call ended the run with, a long, and `steps` the steps that were
/// spent. Of an undefined one `output` is what was put out before, `why` the reason, `at` the offset in the text of the
/// token of the innermost expression that was not evaluated to its end, if it stopped in one, and `calls` those of the
/// calls that were open, the innermost first and at most twenty.
#[derive(Debug, Drop)]
pub enum Outcome {
    More {
        output: Bytes,
        at: Option<u32>,
        calls: Items<u32>,
    },
    Undefined {
        output: Bytes,
        why: Fault,
        at: Option<u32>,
        calls: Items<u32>,
    },
    Deep {
        output: Bytes,
        at: Option<u32>,
        calls: Items<u32>,
    },
    Done {
        output: Bytes,
        result: i64,
        steps: u64,
    },
}
