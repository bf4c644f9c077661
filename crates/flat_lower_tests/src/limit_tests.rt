//! Frames that have no room, and runs that do not end.
use crate::both::{Both, Cut, MOST_STEPS};
use crate::machine::Stop;
use std::alloc::Global;
use std::process::Abort;

const FULL: &str = "int f(int n) { if (n == 0) return 0; return f(n - 1) + 1; }
int main(void) { char pad[88]; return f(6896); }
";

/// Texts whose frames have no room, with the bytes that they put out before.
const DEEP: &[(&str, &[u8])] = &[
    (
        "int f(int n) { if (n == 0) return 0; return f(n - 1) + 1; }
int main(void) { char pad[89]; return f(6896); }",
        b"",
    ),
    ("int main(void) { char large[1048433]; return 7; }", b""),
    (
        "#include <stdio.h>
int f(int n) { long pad[30000]; pad[n] = n; putchar('0' + n); return f(n + 1) + (int) pad[n]; }
int main(void) { return f(0); }",
        b"0123",
    ),
];

/// Texts that do not end, a number of steps, and how their output begins by then.
const ENDLESS: &[(&str, u64, &[u8])] = &[
    ("int main(void) { while (1) ; }", 1000, b""),
    (
        "#include <stdio.h>\nint main(void) { while (1) putchar('a'); }",
        60,
        b"aaaaaaaaaa",
    ),
    (
        "#include <stdio.h>
int main(void) { int i = 0; for (;;) { if (i == 3) { i = 0; continue; } putchar('0' + i++); } }",
        200,
        b"01201201",
    ),
    (
        "#include <stdio.h>
int f(int n) { putchar('a' + n); return f((n + 1) % 5); }
int main(void) { return f(0); }",
        200,
        b"abcdeabcdea",
    ),
    (
        "#include <stdio.h>
int main(void) { int c; do c = getchar(); while (c != EOF || putchar('!') || 1); }",
        200,
        b"!!!!!",
    ),
];

fn assert_deep(rt: &impl Abort, alloc: Global, text: &str, output: &[u8]) {
    let both = Both::of_text(rt, alloc, text, text.as_bytes());
    let cut = both.evaluated(rt, alloc, b"", MOST_STEPS).err();
    assert_eq!(rt; cut, Some(Cut::Deep), "{text}");
    let ran = both.ran(rt, alloc, b"", MOST_STEPS);
    assert_eq!(rt; ran.stop, Stop::Deep, "{text}");
    assert_eq!(rt; ran.output.as_slice(), output, "{text}");
}

fn assert_endless(rt: &impl Abort, alloc: Global, text: &str, steps: u64, output: &[u8]) {
    let both = Both::of_text(rt, alloc, text, text.as_bytes());
    let cut = both.evaluated(rt, alloc, b"in", steps).err();
    assert_eq!(rt; cut, Some(Cut::More), "{text}");
    let ran = both.ran(rt, alloc, b"in", steps.saturating_mul(8));
    assert_eq!(rt; ran.stop, Stop::More, "{text}");
    assert!(rt; ran.output.starts_with(output), "{text}");
}

#[test]
fn both_are_deep_at_one_frame(rt: HostRuntime) {
    let full = Both::of_text(&rt, rt.alloc(), "full", FULL.as_bytes());
    let done = full.assert_same(&rt, rt.alloc(), "full", b"");
    assert_eq!(rt; done.result, 6896);
    for (text, output) in DEEP {
        assert_deep(&rt, rt.alloc(), *text, *output);
    }
}

#[test]
fn both_go_on(rt: HostRuntime) {
    for (text, steps, output) in ENDLESS {
        assert_endless(&rt, rt.alloc(), *text, *steps, *output);
    }
}
