/// How many labels of a group of three are compared; whether one of them is equal is held in scratch variable 0.
#[derive(Clone, Copy, Debug, PartialEq, Eq)]
pub enum Held {
    Zero,
    One,
    Two,
}
