//! The tick of the mesh, counted: which parcels take their links, and which wait for them. It is counted before the
//! tick, by a walk over the parcels that are in the mesh.
ghost use Rattle.std.specs.Prelude.{◌≡◌, ◌≢◌, ◌<◌, ◌≤◌, ◌||◌, ◌+◌, ◌*◌, ◌∷◌, [], ℕ, Bool, All, cond, not, length};
ghost use Rattle.grid_events.specs.Mesh.{moved_notes};
ghost use Rattle.grid_events.specs.Notes.{OnMesh, Passes, Waits};
ghost use Rattle.operand_net.specs.Places.{at};
ghost use Rattle.operand_net.specs.Tick.{any_wants, link_of, next_of, row_wants, wants};
ghost use Rattle.operand_net.specs.inside.Places.{Inside};
ghost use Rattle.operand_net.specs.inside.Rows.{is_open, taken};
ghost use Rattle.grid_tallies.specs.declared.tallies.Tallies as kept;
ghost use Rattle.grid_cycle_spec.specs.inside.Choosing.{places};
ghost use Rattle.grid_tallies.specs.Statistics.{Heard};
ghost use Rattle.grid_tallies.specs.inside.Travelling as spec;

use crate::statistic::Statistic;
use crate::tallies::Tallies;
use operand_net::{Links, Mesh, Stand};

// The node after this one on the way.
fn next(at: u8, to: u8) -> u8
    requires at_in { at < 25 }
    requires to_in { to < 25 }
    requires apart { at ≢ to }
    ensures value { result ≡ next_of at to }
    ensures inside { result < 25 }
{
    if at % 5 == to % 5 {
        if at < to { at + 5 } else { at - 5 }
    } else {
        if at % 5 < to % 5 { at + 1 } else { at - 1 }
    }
}

// A link is taken, or waited for.
fn count(told: &mut Tallies, free: bool)
    ensures { (n p l : ℕ) → Heard told.old
        (cond free (OnMesh (Passes n p l) ∷ []) (OnMesh (Waits n p l) ∷ [])) told.new }
{
    if free {
        told.add(Statistic::Links, 1);
    } else {
        told.add(Statistic::Waits, 1);
    }
}

// A parcel that is not at its end takes its link, where that is free, or waits for it.
fn stand_moves(links: &mut Links, told: &mut Tallies, stand: Stand)
    requires { Inside stand }
    ensures heard { (n p : ℕ) → Heard told.old (moved_notes (is_open (taken links.old.nodes) stand) n p stand)
        told.new }
    ensures marks { (l : ℕ) → taken links.new.nodes l ≡ (taken links.old.nodes l || wants stand l) }
{
    match stand {
        Stand::Nowhere => {}
        Stand::Held { trip: _, left: _ } => {}
        Stand::Away { trip, at } => {
            if at != trip.to {
                count(told, links.take(at, next(at, trip.to)));
            }
        }
    }
}

// The next parcel of a frame takes its link or waits for it; those in the places before `from` have done so, and those
// before the result have.
fn next_moves(mesh: &Mesh, links: &mut Links, told: &mut Tallies, frame: u8, from: u16) -> u16
    requires frame { frame < 8 }
    requires from { from < 320 }
    ensures heard { (before : ℕ → Bool) (a : kept.Tallies)
        → ((l : ℕ) → taken links.old.nodes l ≡ (before l || any_wants from (at mesh.now frame) l))
        → Heard a (spec.row_moves before frame (at mesh.now frame) from) told.old
        → Heard a (spec.row_moves before frame (at mesh.now frame) result) told.new }
    ensures marks { (before : ℕ → Bool)
        → ((l : ℕ) → taken links.old.nodes l ≡ (before l || any_wants from (at mesh.now frame) l))
        → (l : ℕ) → taken links.new.nodes l ≡ (before l || any_wants result (at mesh.now frame) l) }
    ensures more { from < result }
    ensures within { result ≤ 320 }
{
    let place = mesh.next(frame, from);
    if place < 320 {
        stand_moves(links, told, mesh.stand(frame, place));
        place + 1
    } else {
        320
    }
}

// The parcels of one frame.
fn frame_moves(mesh: &Mesh, links: &mut Links, told: &mut Tallies, frame: u8)
    requires { frame < 8 }
    ensures heard { Heard told.old (spec.row_moves (taken links.old.nodes) frame (at mesh.now frame) places) told.new }
    ensures marks { (l : ℕ)
        → taken links.new.nodes l ≡ (taken links.old.nodes l || row_wants (at mesh.now frame) l) }
{
    let mut from: u16 = 0;
    while from < 320 {
        from = next_moves(mesh, links, told, frame, from);
    }
}

/// The parcels of some frames, the eldest first, before a tick: each that is not at its end takes its link, or waits
/// for it.
pub fn moves(mesh: &Mesh, told: &mut Tallies, order: &[u8])
    requires { All (λ n. n < 8) order.now }
    ensures { Heard told.old (spec.frame_moves order.now (at mesh.now) (length order.now)) told.new }
{
    let mut links = Links::none();
    for n in 0..order.len() {
        frame_moves(mesh, &mut links, told, order[n]);
    }
}
