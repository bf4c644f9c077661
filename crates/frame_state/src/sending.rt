//! Tokens that are put on their way: each in the two places of its node.
ghost use Rattle.std.specs.Prelude.{◌≡◌, ◌<◌, suc};
ghost use Rattle.commit_flush_spec.specs.Frames.{is_target};
ghost use Rattle.commit_flush_spec.specs.Sending.{put_if};

use base::Row;
use trips_isa::Token;

// Puts a token in a place, if the target is one that tokens are delivered to.
#[inline(always)]
fn put_if(places: &mut Row<Token, 320, 5>, target: usize, p: usize, token: Token)
    ensures { places.new ≡ put_if (is_target target) places.old p token }
{
    if target < 416 {
        places.put(p, token);
    }
}

/// Puts a token in the two places of its node, as far as their targets are there.
#[inline(always)]
pub fn put_both(places: &mut Row<Token, 320, 5>, targets: (usize, usize), p: usize, token: Token)
    requires { p < 1000 }
    ensures { places.new
        ≡ put_if (is_target targets.1) (put_if (is_target targets.0) places.old p token) (suc p) token }
{
    put_if(places, targets.0, p, token);
    put_if(places, targets.1, p + 1, token);
}
