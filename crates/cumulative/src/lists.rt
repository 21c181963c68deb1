// What is wrong with a list of minimal sets: sets that are empty or name a keyholder above n, and sets that contain another.
ghost use Rattle.std.specs.Prelude.{◌≡◌, ◌^◌, not, ◌&&◌, ◌||◌, position, ◌==◌, nat_lt};
ghost use Rattle.std.specs.List.{list_any, enumerate_from};
ghost use Rattle.cumulative.specs.Access.{subset};

use schemes::KeyholderSet;

// Whether the set contains the other.
// The method's clause says `Decides`, and with it the goal `returns` of a chain stays open; this one says an equation.
pub fn contains(set: KeyholderSet, other: KeyholderSet) -> bool
    ensures { result ≡ subset other.bits set.bits }
{
    set.contains(other)
}

// Whether the set is empty or names a keyholder above n.
fn is_improper(n: u8, set: KeyholderSet) -> bool
    ensures { result ≡ (set.bits == 0 || not (nat_lt set.bits (2 ^ n))) }
{
    set.is_empty() || !set.is_among(n)
}

// The place of the first set that is empty or names a keyholder above n.
pub fn first_improper(n: u8, sets: &[KeyholderSet]) -> Option<usize>
    ensures { result ≡ position (λ set. set.bits == 0 || not (nat_lt set.bits (2 ^ n))) sets.now }
{
    sets.iter().position(|set| is_improper(n, *set))
}

// Whether the set, which stands at this place, contains another of the list, or equals it.
fn is_redundant(sets: &[KeyholderSet], place: usize, set: KeyholderSet) -> bool
    ensures { result ≡ list_any (λ e. not (e.0 == place) && subset e.1.bits set.bits) (enumerate_from 0 sets.now) }
{
    sets.iter().enumerate().any(|(other_place, other)| other_place != place
        && contains(set, *other))
}

// The place of the first set that contains another of the list, or equals it.
pub fn first_redundant(sets: &[KeyholderSet]) -> Option<usize>
    ensures { result ≡ position (λ s. list_any (λ e. not (e.0 == s.0) && subset e.1.bits s.1.bits) (enumerate_from 0 sets.now)) (enumerate_from 0 sets.now) }
{
    sets.iter()
        .enumerate()
        .position(|(place, set)| is_redundant(sets, place, *set))
}
