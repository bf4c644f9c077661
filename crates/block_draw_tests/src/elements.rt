//! A page read as XML without entities: its elements are nested, and counted.

/// Where a reader of a page stands: in letters, or in a tag.
#[derive(Clone, Copy)]
struct Reader {
    /// how many elements are open
    depth: u32,
    /// how many there were
    count: u32,
    /// whether it is in a tag, and there in quotes
    in_tag: bool,
    quoted: bool,
    /// whether the tag ends an element
    closing: bool,
    /// the byte before
    last: u8,
}

// The reader behind a byte of letters.
fn letter(mut reader: Reader, byte: u8) -> Option<Reader> {
    if byte == b'>' || byte == b'&' {
        return None;
    }
    if byte == b'<' {
        reader.in_tag = true;
        reader.closing = false;
    }
    Some(reader)
}

// The reader behind the end of a tag.
fn tag_end(mut reader: Reader) -> Option<Reader> {
    reader.in_tag = false;
    if reader.closing {
        reader.depth = reader.depth.checked_sub(1)?;
        return Some(reader);
    }
    reader.count = reader.count.checked_add(1)?;
    if reader.last != b'/' {
        reader.depth = reader.depth.checked_add(1)?;
    }
    Some(reader)
}

// The reader behind a byte of a tag.
fn tag(mut reader: Reader, byte: u8) -> Option<Reader> {
    if byte == b'\'' {
        reader.quoted = !reader.quoted;
        return Some(reader);
    }
    if reader.quoted {
        return if byte == b'<' { None } else { Some(reader) };
    }
    match byte {
        b'<' => None,
        b'>' => tag_end(reader),
        b'/' => {
            if reader.last == b'<' {
                reader.closing = true;
            }
            Some(reader)
        }
        _ => Some(reader),
    }
}

/// How many elements a page has; none where they are not nested, or a sign stands where none may.
pub fn elements(page: &[u8]) -> Option<u32> {
    let mut reader = Reader {
        depth: 0,
        count: 0,
        in_tag: false,
        quoted: false,
        closing: false,
        last: b' ',
    };
    for byte in page {
        reader = if reader.in_tag {
            tag(reader, *byte)?
        } else {
            letter(reader, *byte)?
        };
        reader.last = *byte;
    }
    if reader.depth == 0 && !reader.in_tag {
        Some(reader.count)
    } else {
        None
    }
}
