//! Orders of age: the numbers of the frames in flight, the oldest first.
ghost use Rattle.std.specs.Prelude.{◌≡◌, ◌<◌, ◌≤◌, IfSome, length, slice_get, List};
ghost use Rattle.commit_flush_spec.specs.Frames.{Frame};
ghost use Rattle.commit_flush.specs.Places.{numbers_of};
ghost use Rattle.commit_flush.specs.inside.Places.{place_of, free_number};
ghost use Rattle.commit_flush.specs.inside.Kept.{is_in};

/// The number at a place of an order.
pub fn number_at(order: &[u8], place: usize) -> Option<u8>
    ensures { result ≡ slice_get order.now place }
{
    if place < order.len() {
        Some(order[place])
    } else {
        None
    }
}

/// The place of a number in an order of at most eight.
pub fn place_of(order: &[u8], number: u8) -> Option<u8>
    requires { length order.now ≤ 8 }
    ensures value { result ≡ place_of number order.now }
    ensures within { IfSome result (λ a. a < length order.now) }
{
    for place in 0..order.len() {
        if order[place] == number {
            return Some(place as u8);
        }
    }
    None
}

// Whether a number is in an order of at most eight.
fn is_in(order: &[u8], number: u8) -> bool
    requires { length order.now ≤ 8 }
    ensures { result ≡ is_in number order.now }
{
    match place_of(order, number) {
        None => false,
        Some(_) => true,
    }
}

/// The lowest of the eight numbers that is not in an order of at most eight.
pub fn free_number(order: &[u8]) -> Option<u8>
    requires { length order.now ≤ 8 }
    ensures value { (fs : List Frame) → numbers_of fs ≡ order.now → result ≡ free_number fs }
    ensures within { IfSome result (λ n. n < 8) }
{
    for number in 0..8u8 {
        if !is_in(order, number) {
            return Some(number);
        }
    }
    None
}
