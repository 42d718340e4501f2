// The members of a set, a number in which bit i is 1 for member i.
ghost use Rattle.std.specs.Prelude.{◌≡◌, ◌<◌};
ghost use Rattle.std.specs.Iterator.{at_most};
ghost use Rattle.search.specs.Members.{TakesLeast};
ghost use Rattle.search.specs.Sets.{delivery_bits, has as is_member};

// Whether i is a member.
#[tactic(auto, unfolding(crate::specs::Sets::has))]
pub(crate) fn has(set: u64, i: usize) -> bool
    requires { i < delivery_bits }
    ensures { result ≡ is_member set i }
{
    (set >> i) % 2 == 1
}

// What is left of a set, of engines or of deliveries, whose members are taken in order.
#[derive(Drop)]
pub(crate) struct Members(pub u64);

impl Iterator for Members {
    type Item = usize;

    ghost next_gives = { TakesLeast };

    ghost remaining = { λ s. at_most s.0 };

    fn next(&mut self) -> Option<usize> {
        if self.0 == 0 {
            return None;
        }
        let least = self.0.trailing_zeros() as usize;
        self.0 -= 1u64 << least;
        Some(least)
    }
}
