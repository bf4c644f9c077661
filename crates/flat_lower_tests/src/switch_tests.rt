//! What texts of C with switches return, as a compiler of C has it, in both forms.
use crate::both::Both;
use crate::switch_texts::SWITCHES;

#[test]
fn switches_go_where_c_says(rt: HostRuntime) {
    let alloc = rt.alloc();
    for (name, text, result) in SWITCHES {
        let both = Both::of_text(&rt, alloc, name, text.as_bytes());
        let done = both.assert_same(&rt, alloc, name, b"");
        assert_eq!(rt; done.result, *result as i64, "{name}");
    }
}
