/// A token in a case, in which a word is no more than its low bit.
#[derive(Clone, Copy, Debug, PartialEq, Eq)]
pub enum CaseToken {
    Absent,
    Null,
    Bit(bool),
}
