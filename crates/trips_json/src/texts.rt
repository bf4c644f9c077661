//! The lines of a report as members and as strings.

ghost use Rattle.std.specs.Prelude.{◌≡◌, ◌++◌, ◌∷◌, [], ◌||◌, ◌<◌, if◌then◌else◌, IfOk, OnOk, length};
ghost use Rattle.trips_json.specs.Strings.{string_of};
ghost use Rattle.trips_json.specs.Lines.{is_value, name_size};
ghost use Rattle.trips_json.specs.Objects.{all_lines, member, others, values};
ghost use Rattle.trips_json.specs.inside.Items.{is_other, piece};

use crate::lines::{first_line, is_value, name_size};
use crate::strings::put_string;
use std::alloc::AllocError;

// Writes the member of a line.
#[tactic(auto, unfolding(crate::specs::Objects::member))]
fn put_member(out: &mut Vec<u8>, line: &[u8]) -> Result<(), AllocError>
    requires { name_size line.now < length line.now }
    ensures ok { OnOk result (out.new.items ≡ out.old.items ++ member line.now) }
{
    let size = name_size(line);
    put_string(out, &line[..size])?;
    out.push(b':')?;
    out.extend_from_slice(&line[size + 1..])
}

// Writes a comma where an item stands before.
fn put_comma(out: &mut Vec<u8>, later: bool) -> Result<(), AllocError>
    ensures ok { OnOk result (out.new.items ≡ out.old.items ++ (if later then 44 ∷ [] else [])) }
{
    if later {
        out.push(b',')?;
    }
    Ok(())
}

// Writes a line where it is a value. Answers whether an item stands behind it.
#[tactic(auto, unfolding(crate::specs::inside::Items::piece))]
fn put_value(out: &mut Vec<u8>, later: bool, line: &[u8]) -> Result<bool, AllocError>
    ensures ok { OnOk result (out.new.items ≡ out.old.items ++ piece is_value member later line.now) }
    ensures later { IfOk result (λ after. after ≡ (later || is_value line.now)) }
{
    if !is_value(line) {
        return Ok(later);
    }
    put_comma(out, later)?;
    put_member(out, line)?;
    Ok(true)
}

// Writes the string of a line, where all are written or it is no value.
#[tactic(auto, unfolding(crate::specs::inside::Items::piece))]
fn put_other(out: &mut Vec<u8>, all: bool, later: bool, line: &[u8]) -> Result<bool, AllocError>
    ensures ok { OnOk result (out.new.items ≡ out.old.items ++ piece (is_other all) string_of later line.now) }
    ensures later { IfOk result (λ after. after ≡ (later || is_other all line.now)) }
{
    if !all && is_value(line) {
        return Ok(later);
    }
    put_comma(out, later)?;
    put_string(out, line)?;
    Ok(true)
}

/// Writes the members of the lines of a text that are values. Want of memory is the only error.
pub fn put_values(out: &mut Vec<u8>, text: &[u8]) -> Result<(), AllocError>
    ensures ok { OnOk result (out.new.items ≡ out.old.items
        ++ values text.now) }
{
    let mut rest = text;
    let mut later = false;
    while !rest.is_empty() {
        let (line, more) = first_line(rest);
        later = put_value(out, later, line)?;
        rest = more;
    }
    Ok(())
}

// Writes the strings of the lines of a text: of all, or of those that are no values.
fn put_strings(out: &mut Vec<u8>, all: bool, text: &[u8]) -> Result<(), AllocError>
    ensures ok { OnOk result (out.new.items ≡ out.old.items
        ++ (if all then all_lines text.now else others text.now)) }
{
    let mut rest = text;
    let mut later = false;
    while !rest.is_empty() {
        let (line, more) = first_line(rest);
        later = put_other(out, all, later, line)?;
        rest = more;
    }
    Ok(())
}

/// Writes the strings of the lines of a text that are no values. Want of memory is the only error.
pub fn put_others(out: &mut Vec<u8>, text: &[u8]) -> Result<(), AllocError>
    ensures ok { OnOk result (out.new.items ≡ out.old.items ++ others text.now) }
{
    put_strings(out, false, text)
}

/// Writes the strings of all lines of a text. Want of memory is the only error.
pub fn put_all(out: &mut Vec<u8>, text: &[u8]) -> Result<(), AllocError>
    ensures ok { OnOk result (out.new.items ≡ out.old.items ++ all_lines text.now) }
{
    put_strings(out, true, text)
}
