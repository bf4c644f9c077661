//! The permutation of a seed.
ghost use Rattle.std.specs.Prelude.{◌≡◌, ◌<◌, ◌≤◌, ℕ, length, slice_index_or};
ghost use Rattle.grid_place.specs.Moves.{IsPermutation};
ghost use Rattle.grid_place.specs.Seeded.{in_place, shuffled, generator, seeded};

use rand_core::utils::NextWord;
use rand_pcg::Pcg32;

/// Each slot stays.
pub fn in_place(to: &mut [u8])
    requires { length to.old ≡ 128 }
    ensures value { to.new ≡ in_place }
{
    for i in 0..128 {
        to[i] = i as u8;
    }
}

#[tactic(auto, unfolding(crate::specs::Seeded::seeded))]
pub fn seeded(to: &mut [u8], seed: u64)
    requires { length to.old ≡ 128 }
    ensures value { to.new ≡ seeded seed }
{
    in_place(to);
    let mut generator = Pcg32::new(seed, 3);
    let mut i = 127;
    while i > 0 {
        let j = generator.next_word() as usize % (i + 1);
        to.swap(i, j);
        i -= 1;
    }
}
