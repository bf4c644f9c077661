//! Where the functions of a unit are defined.

ghost use Rattle.std.specs.Prelude.{◌≡◌, ◌++◌, ◌∷◌, [], if◌then◌else◌, OnOk, IfOk};
ghost use Rattle.trips_explain_endings.specs.Definitions as specs;

use c_tree::{Program, Top, TopNode};
use std::alloc::{AllocError, Global};

// Does the item define a function?
fn is_definition(item: &Top) -> bool
    ensures { specs.definition_of item.now ≡ (if result then item.now.offset ∷ [] else []) }
{
    match &item.node {
        TopNode::Func { body, .. } => body.is_some(),
        _ => false,
    }
}

// Writes the offset of the function that an item defines.
fn put_definition(out: &mut Vec<u32>, item: &Top) -> Result<(), AllocError>
    ensures ok { OnOk result (out.new.items ≡ out.old.items ++ specs.definition_of item.now) }
{
    if is_definition(item) {
        out.push(item.offset)?;
    }
    Ok(())
}

// The offsets of the functions that some items define.
fn definitions_in(alloc: Global, items: &[Top]) -> Result<Vec<u32>, AllocError>
    ensures { IfOk result (λ out. out.items ≡ specs.definitions_of items.now) }
{
    let mut out = Vec::new(alloc);
    for item in items {
        put_definition(&mut out, item)?;
    }
    Ok(out)
}

/// The offsets of the functions that a unit defines, each of its name, in the order of the text.
pub fn definitions_of(alloc: Global, tree: &Program) -> Result<Vec<u32>, AllocError>
    ensures { IfOk result (λ out. out.items ≡ specs.definitions_of tree.now.items) }
{
    definitions_in(alloc, tree.items.as_slice())
}
