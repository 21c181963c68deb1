// The minimal qualified sets of a scheme. Rests on its questions alone.
ghost use Rattle.std.specs.Prelude.{◌≡◌, ◌^◌, map, filter, IfOk};
ghost use Rattle.std.specs.List.{list_any, range_with_len};
ghost use Rattle.schemes.specs.Keyholders.{most_keyholders};
ghost use Rattle.cumulative.specs.Access.{numbers, set_of};
ghost use Rattle.films.specs.Minimal.{is_qualified_part, is_minimal, minimal_sets_of, IsMinimalList};

use schemes::{KeyholderSet, Scheme};
use std::alloc::{AllocError, Global};

// There are so many sets of keyholders.
const SETS: u16 = 256;

// Whether the other set is a part of the set, and qualified.
fn is_qualified_part<S: Scheme>(scheme: &S, set: KeyholderSet, other: KeyholderSet) -> bool
    ensures { result ≡ is_qualified_part (S.means scheme.now) set.bits other.bits }
{
    set.contains(other) && scheme.qualified(other)
}

// Whether a part of the set with a smaller number is qualified.
fn has_qualified_part<S: Scheme>(scheme: &S, set: KeyholderSet) -> bool
    ensures { result ≡ list_any (λ other. is_qualified_part (S.means scheme.now) set.bits other) (range_with_len 0 set.bits) }
{
    (0..set.bits()).any(|number| is_qualified_part(scheme, set, KeyholderSet::from_bits(number)))
}

// Whether the set is qualified, and no smaller one is.
fn is_minimal<S: Scheme>(scheme: &S, set: KeyholderSet) -> bool
    ensures { result ≡ is_minimal (S.means scheme.now) set.bits }
{
    scheme.qualified(set) && !has_qualified_part(scheme, set)
}

// The minimal qualified sets of a scheme, in rising order: the sets that are qualified while no smaller set is.
pub fn minimal_sets<S: Scheme>(heap: Global, scheme: &S) -> Result<Vec<KeyholderSet>, AllocError>
    ensures sets { IfOk result (λ v. numbers v.items ≡ minimal_sets_of (S.means scheme.now)) }
    ensures exactly { IfOk result (λ v. IsMinimalList (S.means scheme.now) (numbers v.items)) }
{
    listed_sets(heap, scheme)
}

// The same, listed by a chain, which asks for a clause that mirrors it.
fn listed_sets<S: Scheme>(heap: Global, scheme: &S) -> Result<Vec<KeyholderSet>, AllocError>
    ensures { IfOk result (λ v. v.items ≡ filter (λ set. is_minimal (S.means scheme.now) set.bits) (map set_of (range_with_len 0 (2 ^ most_keyholders)))) }
{
    (0..SETS)
        .map(|number| KeyholderSet::from_bits(number as u8))
        .filter(|set| is_minimal(scheme, *set))
        .collect(heap)
}
