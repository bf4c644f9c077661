//! What emission knows of a function and its program.

ghost use Rattle.std.specs.Prelude.{◌≡◌, MatchOption, [], IfOk};
ghost use Rattle.hyper_build.specs.inside.Laws.{cuts_by, joins_by, groups_by};
ghost use Rattle.hyper_build.specs.inside.Ground.{entry_at};

use crate::plan::{CutPlan, is_cut, is_joined};
use base::Items;
use std::marker::Model;

/// The plan, the groups of each call, the label of each function, and the bytes of the frame and of
/// its arrays.
#[derive(Drop)]
pub struct Site<'a> {
    pub plan: &'a CutPlan,
    pub groups: &'a Items<Items<Items<u16>>>,
    pub entries: &'a Items<u32>,
    pub frame: u64,
    pub arrays: u64,
}

impl<'a> Model for Site<'a> {
    ghost use Rattle.hyper_build.specs.inside.Ground.{Ground};

    ghost Value = { Ground };

    ghost view = { λ s. record {
      cuts = s.plan.now.cuts;
      joins = s.plan.now.joins;
      groups = s.groups.now;
      entries = s.entries.now;
      frame = s.frame;
      arrays = s.arrays;
    } };
}

impl<'a> Site<'a> {
    /// Whether the plan cuts at a place.
    pub fn cuts(&self, place: u32) -> bool
        ensures { result ≡ cuts_by self.now.cuts place }
    {
        is_cut(self.plan, place)
    }

    /// Whether the plan joins an if at a place.
    pub fn joins(&self, place: u32) -> bool
        ensures { result ≡ joins_by self.now.joins place }
    {
        is_joined(self.plan, place)
    }

    /// The groups of a call; where there are none, none.
    pub fn groups_of(&self, call: u32) -> &[Items<u16>]
        ensures { result.now ≡ groups_by self.now.groups call }
    {
        match self.groups.get(call as usize) {
            None => &[],
            Some(groups) => groups.as_slice(),
        }
    }

    /// The label of a function; where there is none, 0.
    pub fn entry(&self, function: u32) -> u32
        ensures { result ≡ entry_at self.now.entries function }
    {
        match self.entries.get(function as usize) {
            None => 0,
            Some(entry) => *entry,
        }
    }
}
