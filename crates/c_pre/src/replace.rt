//! The replacement of names by the bodies of their macros (C17 6.10.3.4).

ghost use Rattle.std.specs.Prelude.{◌≡◌, OnOk};
ghost use Rattle.c_tree.specs.Limits.{most_tokens};
ghost use Rattle.c_pre.specs.Macros.{turns, turns_by, each, live_body};
ghost use Rattle.c_pre.specs.Outputs.{all_taken};
ghost use Rattle.c_pre.specs.inside.Gives.{Gives};
ghost use Rattle.c_pre.specs.inside.EachTaken.{each_taken};

use crate::fault::PreFault;
use crate::macros::{Macro, live_body, name_of};
use crate::output::Output;
use base::Items;
use c_library::form_copied;
use c_tree::{Form, Word};
use std::alloc::Global;

/// Adds what these forms come to, one after another, where these names are being replaced.
#[cycle(replacing)]
fn replace_all(
    alloc: Global,
    macros: &[Macro],
    at: u32,
    depth: usize,
    hidden: &mut Items<Word>,
    forms: &[Form],
    output: &mut Output,
) -> Result<(), PreFault>
    ensures gives { Gives (each_taken most_tokens at depth macros.now hidden.old forms.now output.old)
        result output.new }
    ensures hidden { OnOk result (hidden.new ≡ hidden.old) }
{
    let mut rest = forms;
    while let [form, more @ ..] = rest {
        replace(alloc, macros, at, depth, hidden, form, output)?;
        rest = more;
    }
    Ok(())
}

/// Adds what these forms come to, where these names are being replaced.
#[cycle(replacing)]
#[tactic(auto, using(crate::proofs::Turns::each_is))]
fn replace_each(
    alloc: Global,
    macros: &[Macro],
    at: u32,
    depth: usize,
    hidden: &mut Items<Word>,
    forms: &[Form],
    output: &mut Output,
) -> Result<(), PreFault>
    ensures gives { Gives (all_taken most_tokens at (each (turns depth macros.now hidden.old) forms.now) output.old)
        result output.new }
    ensures hidden { OnOk result (hidden.new ≡ hidden.old) }
{
    replace_all(alloc, macros, at, depth, hidden, forms, output)
}

/// Adds what a form with this name comes to, where these names are being replaced.
#[cycle(replacing)]
#[tactic(auto, using(crate::proofs::Turns::one))]
fn replace_name(
    alloc: Global,
    macros: &[Macro],
    at: u32,
    depth: usize,
    hidden: &mut Items<Word>,
    form: &Form,
    name: &Word,
    output: &mut Output,
) -> Result<(), PreFault>
    ensures gives { Gives (all_taken most_tokens at (turns_by (λ hs f. turns depth macros.now hs f) hidden.old
        form.now name.now (live_body macros.now hidden.old name.now)) output.old) result output.new }
    ensures hidden { OnOk result (hidden.new ≡ hidden.old) }
{
    match live_body(macros, hidden.as_slice(), name.as_slice()) {
        None => output.put(at, form_copied(alloc, form)?),
        Some(body) => {
            output.count(at)?;
            hidden.push(name.copy(alloc)?)?;
            replace_each(alloc, macros, at, depth, hidden, body.as_slice(), output)?;
            hidden.pop();
            Ok(())
        }
    }
}

/// Adds what a form comes to, where these names are being replaced.
#[cycle(replacing)]
#[tactic(auto, using(crate::proofs::Turns::one, crate::proofs::Turns::at_zero, crate::proofs::Turns::at_more))]
pub fn replace(
    alloc: Global,
    macros: &[Macro],
    at: u32,
    depth: usize,
    hidden: &mut Items<Word>,
    form: &Form,
    output: &mut Output,
) -> Result<(), PreFault>
    ensures gives { Gives (all_taken most_tokens at (turns depth macros.now hidden.old form.now) output.old)
        result output.new }
    ensures hidden { OnOk result (hidden.new ≡ hidden.old) }
{
    if depth == 0 {
        return output.put(at, form_copied(alloc, form)?);
    }
    match name_of(form) {
        None => output.put(at, form_copied(alloc, form)?),
        Some(name) => replace_name(alloc, macros, at, depth - 1, hidden, form, name, output),
    }
}
