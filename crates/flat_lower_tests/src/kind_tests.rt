//! What the operators give at each type, as a compiler of C has it, in both forms.
use crate::both::Both;
use crate::kind_texts;
use std::alloc::{AllocError, Global};
use std::process::Abort;
use std::test::Fail;

const KINDS: [&str; 8] = [
    "char",
    "unsigned char",
    "short",
    "unsigned short",
    "int",
    "unsigned",
    "long",
    "unsigned long",
];

// Texts with what main gives, for each type.
const BY_KIND: &[(&str, [i32; 8])] = &[
    (
        kind_texts::OPERATORS,
        [
            -1492307579,
            -1228860238,
            -1492307579,
            -988973740,
            -1492307579,
            255191235,
            -1492307579,
            -834489021,
        ],
    ),
    (
        kind_texts::ASSIGNMENTS,
        [
            371752529,
            -157399522,
            1746729408,
            -1777214776,
            1746729408,
            981555397,
            1746729408,
            -1511494971,
        ],
    ),
    (
        kind_texts::BUMPS,
        [
            -774539202,
            1028502206,
            -1153494977,
            -839609666,
            -1153494977,
            -1883925826,
            -1153494977,
            653959486,
        ],
    ),
    (
        kind_texts::CONVERSIONS,
        [
            -560513234,
            2016952901,
            -814735204,
            895535539,
            -1419272192,
            -1737099048,
            -211646113,
            -2024492843,
        ],
    ),
    (
        kind_texts::SHORTS,
        [
            -1676171872,
            1751935407,
            2021928616,
            2126628486,
            108329611,
            -338773884,
            108329611,
            -1614456214,
        ],
    ),
    (
        kind_texts::TABLES,
        [
            161698521, -551959860, -348835656, -298926388, -348835656, -13975860, -348835656,
            -348835656,
        ],
    ),
    (
        kind_texts::POWERS,
        [
            2006861761,
            2137360276,
            -2087326541,
            315790331,
            1012293151,
            1686672379,
            -26970033,
            -1619674333,
        ],
    ),
];

/// The text in which a type stands for each `@`.
fn with_kind(alloc: Global, text: &str, kind: &str) -> Result<Vec<u8>, AllocError> {
    let mut made = Vec::new(alloc);
    for byte in text.as_bytes() {
        if *byte == b'@' {
            made.extend_from_slice(kind.as_bytes())?;
        } else {
            made.push(*byte)?;
        }
    }
    Ok(made)
}

fn assert_kinds(
    rt: &impl Abort,
    alloc: Global,
    text: &str,
    results: &[i32],
) -> Result<(), AllocError> {
    for (kind, result_wanted) in KINDS.iter().zip(results) {
        let text = with_kind(alloc, text, *kind)?;
        let both = Both::of_text(rt, alloc, *kind, text.as_slice());
        let done = both.assert_same(rt, alloc, *kind, b"");
        assert_eq!(rt; done.result, *result_wanted as i64, "{kind}: {text:?}");
    }
    Ok(())
}

#[test]
fn operators_mean_the_same_at_every_kind(rt: HostRuntime) -> Result<(), Fail> {
    for (text, results) in BY_KIND {
        assert_kinds(&rt, rt.alloc(), *text, results.as_slice())?;
    }
    Ok(())
}
