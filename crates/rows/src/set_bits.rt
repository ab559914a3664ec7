// The bits of a word that are set, by their places.
ghost use Rattle.std.specs.Iterator.{at_most};
ghost use Rattle.rows.specs.SetBits.{TakesLowest};

// The places of a word's set bits, the lowest first.
#[derive(Clone, Copy, Drop)]
pub struct SetBits(pub u64);

impl Iterator for SetBits {
    type Item = u32;

    ghost next_gives = { TakesLowest };

    ghost remaining = { λ s. at_most s.0 };

    fn next(&mut self) -> Option<u32> {
        if self.0 == 0 {
            return None;
        }
        let place = self.0.trailing_zeros();
        self.0 &= self.0 - 1;
        Some(place)
    }
}
