//! The front and the numbers of blocks, which come byte by byte.
ghost use Rattle.std.specs.Prelude.{◌≡◌, ◌<◌, ◌++◌, ◌∷◌, [], ℕ, List, length};
ghost use Rattle.std.specs.Str.{bytes_eq};
ghost use Rattle.byteorder.specs.Endian.{big_bytes};
ghost use Rattle.trips_isa.specs.Machine.{State};
ghost use Rattle.trace_verify.specs.Spelling.{magic, front, end_bytes};
ghost use Rattle.trace_verify.specs.Reading.{Progress, front_seen, number_seen, number_come, block_come};
ghost use Rattle.trace_verify.specs.inside.Fronting.{by_front, by_number};

use trips_isa::Stepped;

/// What a byte more makes of the front.
#[derive(Clone, Copy, Debug, PartialEq, Eq)]
pub enum Fronted {
    More,
    Whole,
    NoMagic,
    NoVersion,
}

/// What a byte more makes of a number.
#[derive(Clone, Copy, Debug, PartialEq, Eq)]
pub enum Numbered {
    More,
    Whole,
    Begins,
    Past,
    WrongBlock,
    TooLong,
}

/// The front, as far as it has come.
pub fn judge_front(seen: &[u8]) -> Fronted
    ensures value { (c : Progress) → front_seen seen.now c ≡ by_front c seen.now result }
    ensures more { result ≡ Fronted.More → length seen.now ≡ 12 → ⊥ }
{
    if seen.len() == 8 {
        if seen == b"TRIPSTRC".as_slice() {
            Fronted::More
        } else {
            Fronted::NoMagic
        }
    } else if seen.len() == 12 {
        if seen == b"TRIPSTRC\0\0\0\x01".as_slice() {
            Fronted::Whole
        } else {
            Fronted::NoVersion
        }
    } else {
        Fronted::More
    }
}

// Whether the bytes are those of a number.
fn is_number(seen: &[u8], number: u32) -> bool
    ensures { result ≡ bytes_eq seen.now (big_bytes 4 number) }
{
    let bytes = number.to_be_bytes();
    seen == bytes.as_slice()
}

// A number that is not the end word, where the run goes on.
fn judge_block(seen: &[u8], next: u32, count: u32, budget: u32) -> Numbered
    ensures value { (s : State) (at : ℕ) → s.next ≡ next → block_come budget seen.now
        (record { state = s; answer = Stepped.Went; count = count; at = at }) Stepped.Went
        ≡ by_number seen.now (record { state = s; answer = Stepped.Went; count = count; at = at }) result }
    ensures more { result ≡ Numbered.More → ⊥ }
    ensures begins { result ≡ Numbered.Begins → count < budget }
{
    if is_number(seen, next) {
        if count < budget {
            Numbered::Begins
        } else {
            Numbered::TooLong
        }
    } else {
        Numbered::WrongBlock
    }
}

// A number that is whole and not the end word.
fn judge_answered(seen: &[u8], answer: Stepped, next: u32, count: u32, budget: u32) -> Numbered
    ensures value { (s : State) (at : ℕ) → s.next ≡ next → block_come budget seen.now
        (record { state = s; answer = answer; count = count; at = at }) answer
        ≡ by_number seen.now (record { state = s; answer = answer; count = count; at = at }) result }
    ensures more { result ≡ Numbered.More → ⊥ }
    ensures begins { result ≡ Numbered.Begins → (answer ≡ Stepped.Went) × (count < budget) }
{
    match answer {
        Stepped::Went => judge_block(seen, next, count, budget),
        Stepped::Ended => Numbered::Past,
        Stepped::StackFull => Numbered::Past,
        Stepped::Trap(_) => Numbered::Past,
    }
}

/// The number of a block or the end word, as far as it has come.
pub fn judge_number(seen: &[u8], answer: Stepped, next: u32, count: u32, budget: u32) -> Numbered
    ensures value { (s : State) (at : ℕ) → s.next ≡ next → number_seen budget seen.now
        (record { state = s; answer = answer; count = count; at = at })
        ≡ by_number seen.now (record { state = s; answer = answer; count = count; at = at }) result }
    ensures more { result ≡ Numbered.More → length seen.now ≡ 4 → ⊥ }
    ensures begins { result ≡ Numbered.Begins → (answer ≡ Stepped.Went) × (count < budget) }
{
    if seen.len() == 4 {
        if is_number(seen, 4_294_967_295) {
            Numbered::Whole
        } else {
            judge_answered(seen, answer, next, count, budget)
        }
    } else {
        Numbered::More
    }
}
