//! Lists of variables, cut into groups.

ghost use Rattle.std.specs.Prelude.{◌≡◌, ◌+◌, ◌*◌, ◌/◌, ◌<◌, map, take, drop, length, IfOk};
ghost use Rattle.reg_assign.specs.inside.Live as live;

use base::{Items, Memory};
use std::alloc::Global;

fn count_of(len: usize) -> usize
    ensures { result ≡ (len + 15) / 16 }
{
    if len % 16 == 0 {
        len / 16
    } else {
        len / 16 + 1
    }
}

/// A group by its number.
fn group(list: &[u16], alloc: Global, n: usize) -> Result<Items<u16>, Memory>
    requires { n * 16 < length list.now }
    ensures { IfOk result (λ group. group ≡ take 16 (drop (n * 16) list.now)) }
{
    let rest = &list[n * 16..];
    let most = if rest.len() < 16 { rest.len() } else { 16 };
    Ok(Items::from_slice(alloc, &rest[..most])?)
}

/// A list, cut into groups of at most 16.
fn groups_of(list: &[u16], alloc: Global) -> Result<Items<Items<u16>>, Memory>
    ensures { IfOk result (λ groups. groups ≡ live.groups_of list.now) }
{
    let mut groups = Items::new(alloc);
    for n in 0..count_of(list.len()) {
        groups.push(group(list, alloc, n)?)?;
    }
    Ok(groups)
}

/// Each list, cut into groups.
pub fn all_groups(lists: &[Items<u16>], alloc: Global) -> Result<Items<Items<Items<u16>>>, Memory>
    ensures { IfOk result (λ all. all ≡ map live.groups_of lists.now) }
{
    let mut all = Items::new(alloc);
    for list in lists {
        all.push(groups_of(list.as_slice(), alloc)?)?;
    }
    Ok(all)
}
