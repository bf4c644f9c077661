//! Texts compiled by the plan of each room, and run on the sequential machine, with their evaluation beside.
ghost use Rattle.std.specs.Prelude.{◌≡◌};

use block_atomic::Arch;
use block_check::CheckedImage;
use c_compile::compile_within;
use c_front::front;
use c_meaning::{Outcome, evaluate};
use grid_place::Placing;
use std::alloc::{AllocError, Global};
use std::process::Abort;
use std::test::Fail;
use trips_isa::{Ending, Stepped};

/// The rooms of a block, from the most to none, with which each place is cut.
const ROOMS: [u8; 6] = [128, 64, 32, 16, 8, 0];

/// More steps, and more blocks, than any text here takes.
const STEPS: u64 = 100_000;

const BUDGET: u32 = 100_000;

/// A text, and its input.
type Row = (&'static str, &'static [u8]);

// An array, a loop that goes on in its block, stores in legs; legs in legs, a division in a leg, breaks and
// continues; the three short circuits; calls that save much; input and output; switches that fall through, in a loop
// and in one another; arrays with two sizes.
const ROWS: &[Row] = &[
    (
        "long a[9]; int main(void) { int i; a[0] = 1; for (i = 1; i < 9; i++) a[i] = a[i - 1] * 2; \
         return (int) a[8]; }",
        b"",
    ),
    (
        "int a[8]; int main(void) { int i; int s = 0; for (i = 0; i < 8; i++) { if (i % 3) { a[i] = i; \
         s += a[i - 1]; } else { if (s) a[i] = s / i; } } return s; }",
        b"",
    ),
    (
        "int main(void) { int i = 0; int s = 0; while (1) { i++; if (i == 4) continue; if (i > 9) break; \
         s = s * 3 + i; } do { s--; if (s % 7 == 0) break; } while (s); return s; }",
        b"",
    ),
    (
        "int main(void) { int a = 0; int b = 3; int x = a || b > 2 && b / (a + 1); x = x ? b ? 5 : 6 : 7; \
         return a && b / a ? 1 : x * 10 + !a; }",
        b"",
    ),
    (
        "int f(int n) { return n < 2 ? n : f(n - 1) + f(n - 2); } int main(void) { int a = 2; int b = 3; \
         int c = f(7); return f(a + b) * 100 + a * b + c; }",
        b"",
    ),
    (
        "#include <stdio.h>\nint main(void) { int c; int in = 0; int n = 0; \
         while ((c = getchar()) != EOF) { if (c == ' ') in = 0; else if (!in) { in = 1; n++; } putchar(c + 1); } \
         return n; }",
        b"a bb\nccc d",
    ),
    (
        "short t[3][4] = {{1, 2, 3}, {4}}; int main(void) { int i; int s = 0; \
         for (i = 0; i < 12; i++) { switch (t[i / 4][i % 4] & 3) { case 1: t[i / 4][0] += 2; case 2: s += 10; break; \
         default: s++; continue; case 3: s -= 3; } s += t[2][i % 4]++; } return s; }",
        b"",
    ),
    (
        "int f(unsigned short n, char a[][3]) { switch (n % 3) { case 0: switch (n) { case 9: return a[1][2]; \
         default: break; } case 1: return n < 2 ? 1 : f(n - 1, a) + 1; } a[1][2] += n; return f(n / 2, a); } \
         int main(void) { char a[2][3]; a[1][2] = 1; return f(11, a) * 100 + f(9, a); }",
        b"",
    ),
];

/// The output and the result of a text.
#[derive(Drop)]
struct End {
    output: Vec<u8>,
    result: i64,
}

// The evaluation of a text.
fn evaluated(rt: &impl Abort, alloc: Global, text: &str, input: &[u8]) -> Result<End, Fail> {
    let bytes = text.as_bytes();
    assert!(rt; bytes.len() < 262_144, "a short text");
    let typed = front(alloc, bytes).expect(rt, text);
    match evaluate(alloc, &typed, input, STEPS).expect(rt, "memory") {
        Outcome::Done {
            output,
            result,
            steps: _,
        } => Ok(End {
            output: output.into_vec(),
            result,
        }),
        _ => Err(Fail::from(AllocError)),
    }
}

// A step of the sequential machine.
fn step(rt: &impl Abort, image: &CheckedImage, arch: &mut Arch, budget: u32) -> Stepped
    requires { arch.old.budget ≡ budget }
    ensures { arch.new.budget ≡ budget }
{
    assert!(rt; arch.next() < image.count(), "a next block");
    assert!(rt;
        arch.trace().len() < budget as usize,
        "a step within the budget"
    );
    arch.step(image)
}

// How the sequential machine's run ends.
fn ending(rt: &impl Abort, image: &CheckedImage, arch: &mut Arch, budget: u32) -> Ending
    requires { arch.old.budget ≡ budget }
{
    for _turn in 0..budget {
        match step(rt, image, arch, budget) {
            Stepped::Went => {}
            Stepped::Ended => return Ending::Ended,
            Stepped::StackFull => return Ending::StackFull,
            Stepped::Trap(cause) => {
                return Ending::Trap {
                    block: arch.next(),
                    cause,
                };
            }
        }
    }
    Ending::Budget
}

// An image's run ends as the evaluation did.
fn assert_ends(
    rt: &impl Abort,
    alloc: Global,
    row: &Row,
    room: u8,
    image: &CheckedImage,
    end: &End,
) -> Result<(), Fail> {
    let (text, input) = *row;
    let mut arch = Arch::make(alloc, image, Vec::from_slice(alloc, input)?, BUDGET).expect(
        rt, "memory",
    );
    let ended = ending(rt, image, &mut arch, BUDGET);
    assert!(rt; ended == Ending::Ended, "{text} within {room}: {ended:?}");
    assert_eq!(rt;
        arch.output(),
        end.output.as_slice(),
        "{text} within {room}: its output"
    );
    let word = end.result.cast_unsigned();
    assert_eq!(rt; arch.register(3), word, "{text} within {room}: its result");
    Ok(())
}

// A text under the plan of a room. Gives how many blocks it makes.
fn blocks_within(
    rt: &impl Abort,
    alloc: Global,
    row: &Row,
    room: u8,
    end: &End,
) -> Result<u32, Fail> {
    let bytes = row.0.as_bytes();
    assert!(rt; bytes.len() < 262_144, "a short text");
    let tried = compile_within(alloc, bytes, Placing::Greedy, room).expect(rt, row.0);
    assert_eq!(rt; tried.count.refused, 0, "{} within {room}", row.0);
    match &tried.image {
        None => assert!(rt; false, "{} within {room} has an image", row.0),
        Some(image) => assert_ends(rt, alloc, row, room, image, end)?,
    }
    Ok(tried.count.blocks)
}

fn assert_row(rt: &impl Abort, alloc: Global, row: &Row) -> Result<(), Fail> {
    let end = evaluated(rt, alloc, row.0, row.1)?;
    let mut fewer = 0;
    for room in ROOMS {
        let blocks = blocks_within(rt, alloc, row, room, &end)?;
        assert!(rt; fewer <= blocks, "{}: less room is more blocks", row.0);
        fewer = blocks;
    }
    Ok(())
}

fn assert_rows(rt: &impl Abort, alloc: Global, rows: &[Row]) -> Result<(), Fail> {
    for row in rows {
        assert_row(rt, alloc, row)?;
    }
    Ok(())
}

#[test]
fn images_of_every_room_end_as_evaluated(rt: HostRuntime) -> Result<(), Fail> {
    assert_rows(&rt, rt.alloc(), ROWS)
}
