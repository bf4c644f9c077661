//! Texts that are lowered, and texts that are refused.

use c_compile::lower_text;
use std::alloc::Global;

/// The functions of the text's flat program, and none where the text is refused.
fn functions(alloc: Global, text: &str) -> Option<usize> {
    let bytes = text.as_bytes();
    if bytes.len() >= 4_294_967_295 {
        return None;
    }
    match lower_text(alloc, bytes) {
        Ok(flat) => Some(flat.functions.len()),
        Err(_) => None,
    }
}

#[test]
fn accepted_texts_are_lowered(rt: HostRuntime) {
    let rows = [
        ("int main(void) { return 7; }", Some(1)),
        (
            "int twice(int n) { return n + n; } int main(void) { return twice(4); }",
            Some(2),
        ),
        (
            "char a[5]; void f(char b[]) { b[0]++; } int main(void) { f(a); return a[0]; }",
            Some(2),
        ),
        ("int main(void) { return 7 }", None),
        ("int main(void) { return n; }", None),
        ("int main(void) { return '; }", None),
        ("int f(void) { return 1; }", None),
    ];
    for (text, count) in rows {
        assert_eq!(rt; functions(rt.alloc(), text), count, "{text}");
    }
}
