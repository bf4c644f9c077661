//! The arguments of a call, as the first scalars of the function that is called.

ghost use Rattle.std.specs.Prelude.{◌≡◌, ◌++◌, ◌∷◌, [], map, Some, OnOk};
ghost use Rattle.c_meaning.specs.inside.Given.{words};

use crate::scalars::Scalars;
use std::alloc::AllocError;
use std::marker::Model;

/// The arguments of a call that have been evaluated.
#[derive(Drop)]
pub struct Arguments {
    scalars: Scalars,
}

impl Model for Arguments {
    ghost use Rattle.std.specs.Prelude.{◌≡◌, List, ℕ, map, Some};
    ghost use Rattle.c_meaning.specs.inside.Given.{words};

    ghost Value = { List ℕ };

    ghost view = { λ a. words a.scalars };

    ghost invariant = { λ a. map Some (words a.scalars) ≡ a.scalars };
}

/// One more argument, behind others that are all set.
#[tactic(auto, using(crate::proofs::Filled::filled_push, crate::proofs::Filled::words_push))]
#[inline(always)]
pub fn push_argument(
    list: &mut Scalars,
    lists: &mut Vec<Vec<Option<u64>>>,
    w: u64,
) -> Result<(), AllocError>
    requires given { map Some (words list.old) ≡ list.old }
    ensures words { OnOk result (words list.new ≡ words list.old ++ w ∷ []) }
    ensures given { OnOk result (map Some (words list.new) ≡ list.new) }
{
    list.push(lists, Some(w))?;
    Ok(())
}

impl Arguments {
    /// The words of scalars that are all set.
    #[inline(always)]
    pub fn of(scalars: Scalars) -> Arguments
        requires { map Some (words scalars) ≡ scalars }
        ensures { result ≡ words scalars }
    {
        Arguments { scalars }
    }

    /// The first scalars of the function that is called.
    #[inline(always)]
    pub fn into_scalars(self) -> Scalars
        ensures words { words result ≡ self }
        ensures given { map Some (words result) ≡ result }
    {
        self.scalars
    }
}
