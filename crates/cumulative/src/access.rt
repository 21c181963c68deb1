// Who may open together: a list of minimal sets that is not refused, and the maximal forbidden sets that it leaves.
ghost use Rattle.std.specs.Prelude.{◌≡◌, ◌+◌, ◌^◌, ◌<◌, ◌≤◌, map, filter, count_by, length, IfOk, OnOk};
ghost use Rattle.std.specs.List.{list_any, range_with_len};
ghost use Rattle.schemes.specs.Keyholders.{most_keyholders};
ghost use Rattle.schemes.specs.Refusals.{refusal_in};
ghost use Rattle.cumulative.specs.Access.{numbers, set_of, subset, can_join, maximal, forbidden_sets};
ghost use Rattle.cumulative.specs.Making.{most_forbidden, making_refusal, ProperSets};

use crate::lists::{contains, first_improper, first_redundant};
use schemes::{KeyholderSet, SchemeRefusal, check_keyholders};
use std::alloc::{AllocError, Global};

// A list has at most so many minimal sets.
const MOST_SETS: usize = 16;

// A scheme has at most so many maximal forbidden sets: all of n goes no further.
const MOST_FORBIDDEN: usize = 8;

// Keyholders 1 to n, and the minimal sets of them.
#[derive(Clone, Copy)]
pub struct Access<'a> {
    pub n: u8,
    pub minimal: &'a [KeyholderSet],
    ghost few: { n ≤ most_keyholders },
}

impl<'a> Access<'a> {
    // Refusals 7 to 11, the first that applies. No memory is asked for.
    pub fn new(n: u8, minimal: &'a [KeyholderSet]) -> Result<Access<'a>, SchemeRefusal>
        ensures refusal { refusal_in result ≡ making_refusal n (numbers minimal.now) }
        ensures list { IfOk result (λ access. (access.n ≡ n) × (access.minimal.now ≡ minimal.now)) }
        ensures proper { OnOk result (ProperSets n (numbers minimal.now)) }
        ensures few { OnOk result (length (forbidden_sets n (numbers minimal.now)) ≤ most_forbidden) }
    {
        check_keyholders(1, n)?;
        if !(1..=MOST_SETS).contains(&minimal.len()) {
            return Err(SchemeRefusal::ListLength);
        }
        if let Some(place) = first_improper(n, minimal) {
            return Err(SchemeRefusal::Members(place));
        }
        if let Some(place) = first_redundant(minimal) {
            return Err(SchemeRefusal::Redundant(place));
        }
        let access = Access { n, minimal };
        if access.count_forbidden() > MOST_FORBIDDEN {
            return Err(SchemeRefusal::ForbiddenSets);
        }
        Ok(access)
    }

    // Whether the set contains one of the minimal sets.
    pub fn is_qualified(&self, set: KeyholderSet) -> bool
        ensures { result ≡ list_any (λ least. subset least.bits set.bits) self.now.minimal.now }
    {
        self.minimal.iter().any(|least| contains(set, *least))
    }

    // Whether the keyholder is not in the set, and it stays forbidden where he joins it.
    fn can_join(&self, set: KeyholderSet, keyholder: u8) -> bool
        requires least { 1 ≤ keyholder }
        requires most { keyholder ≤ most_keyholders }
        ensures { result ≡ can_join (numbers self.now.minimal.now) set.bits keyholder }
    {
        // A test of its own: with `is_some_and` the goal `returns-then-not-has` stays open.
        let Some(larger) = set.with(keyholder) else {
            return false;
        };
        !set.has(keyholder) && !self.is_qualified(larger)
    }

    // Whether one of keyholders 1 to n can join the set.
    fn can_grow(&self, set: KeyholderSet) -> bool
        ensures { result ≡ list_any (λ k. can_join (numbers self.now.minimal.now) set.bits (k + 1)) (range_with_len 0 self.now.n) }
    {
        (0..self.n).any(|k| self.can_join(set, k + 1))
    }

    // Whether the set is forbidden, and every larger set of keyholders 1 to n is qualified.
    fn is_maximal(&self, set: KeyholderSet) -> bool
        requires { set.bits < 2 ^ self.now.n }
        ensures { result ≡ maximal self.now.n (numbers self.now.minimal.now) set.bits }
    {
        !self.is_qualified(set) && !self.can_grow(set)
    }

    // How many maximal forbidden sets there are.
    // Counted before they are listed: no memory is asked for before every refusal is decided.
    fn count_forbidden(&self) -> usize
        ensures { result ≡ count_by (λ x. maximal self.now.n (numbers self.now.minimal.now) x) (range_with_len 0 (2 ^ self.now.n)) }
    {
        (0..1u16 << self.n)
            .filter(|number| self.is_maximal(KeyholderSet::from_bits(*number as u8)))
            .count()
    }

    // The maximal forbidden sets, in rising order.
    pub fn forbidden_sets(&self, heap: Global) -> Result<Vec<KeyholderSet>, AllocError>
        ensures { IfOk result (λ sets. sets.items ≡ filter (λ set. maximal self.now.n (numbers self.now.minimal.now) set.bits) (map set_of (range_with_len 0 (2 ^ self.now.n)))) }
    {
        (0..1u16 << self.n)
            .map(|number| KeyholderSet::from_bits(number as u8))
            .filter(|set| self.is_maximal(*set))
            .collect(heap)
    }
}
