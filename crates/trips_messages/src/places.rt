//! The place of a byte in a text.

ghost use Rattle.std.specs.Prelude.{◌≡◌, ◌≤◌, ◌<◌, ◌+◌, length, suc, take, drop, if◌then◌else◌};
ghost use Rattle.trips_messages.specs.Places as places;

/// How many bytes stand before the first line feed.
pub fn line_length(bytes: &[u8]) -> usize
    ensures value { result ≡ places.line_length bytes.now }
    ensures within { result ≤ length bytes.now }
{
    let mut count = 0usize;
    let mut rest = bytes;
    while let [b, more @ ..] = rest {
        if *b == b'\n' {
            return count;
        }
        count += 1;
        rest = more;
    }
    count
}

/// Where the line of the next byte begins.
fn next_start(b: u8, at: usize, start: usize) -> usize
    requires room { at < usize.MAX }
    ensures value { result ≡ (if places.is_feed b then suc at else start) }
    ensures within { start ≤ at → result ≤ suc at }
{
    if b == b'\n' { at + 1 } else { start }
}

/// Where the last line of the bytes begins.
fn line_start(bytes: &[u8]) -> usize
    ensures value { result ≡ places.line_start bytes.now }
    ensures within { result ≤ length bytes.now }
{
    let mut at = 0usize;
    let mut start = 0usize;
    let mut rest = bytes;
    while let [b, more @ ..] = rest {
        start = next_start(*b, at, start);
        at += 1;
        rest = more;
    }
    start
}

/// What stands before a byte of the text, and what from it on.
#[tactic(auto, using(std::proofs::lemmas::List::take_all, std::proofs::lemmas::List::drop_all))]
pub fn parted(text: &[u8], offset: usize) -> (&[u8], &[u8])
    ensures before { result.0.now ≡ take offset text.now }
    ensures rest { result.1.now ≡ drop offset text.now }
{
    if text.len() <= offset {
        text.split_at(text.len())
    } else {
        text.split_at(offset)
    }
}

/// The last line of the bytes.
pub fn last_line(bytes: &[u8]) -> &[u8]
    ensures { result.now ≡ drop (places.line_start bytes.now) bytes.now }
{
    let (_, line) = bytes.split_at(line_start(bytes));
    line
}

/// The first line of the bytes.
pub fn first_line(bytes: &[u8]) -> &[u8]
    ensures { result.now ≡ take (places.line_length bytes.now) bytes.now }
{
    let (line, _) = bytes.split_at(line_length(bytes));
    line
}

/// The column of a byte of the text, counted from 1.
pub fn column(text: &[u8], offset: u32) -> u64
    ensures { result ≡ places.column text.now offset }
{
    let (before, _) = parted(text, offset as usize);
    last_line(before).len() as u64 + 1
}
