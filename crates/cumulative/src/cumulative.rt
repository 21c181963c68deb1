// The scheme of sets, made from the minimal sets of keyholders who may open together.
ghost use Rattle.std.specs.Prelude.{◌≡◌, ℕ, ◌+◌, ◌<◌, ◌≤◌, false, ◌&&◌, [], ◌∷◌, length, IfOk, IfErr, OnErr, OnOk};
ghost use Rattle.std.specs.List.{list_any, range_with_len};
ghost use Rattle.schemes.specs.AllOf.{all_of};
ghost use Rattle.schemes.specs.Keyholders.{most_keyholders};
ghost use Rattle.schemes.specs.Refusals.{refusal_in};
ghost use Rattle.schemes.specs.declared.refusals.SchemeRefusal.TheVariants.{Memory};
ghost use Rattle.cumulative.specs.Access.{numbers, forbidden_sets, IsForbiddenList};
ghost use Rattle.cumulative.specs.Cumulative.{cumulative, LevelsOfSets, OpensToQualified};
ghost use Rattle.cumulative.specs.Making.{improper, making_refusal, ByRulesOrNoMemory};
ghost use Rattle.cumulative.specs.Records.{noted, in_record};
ghost use Rattle.cumulative.specs.CumulativeFacts.{cumulative_in_range, cumulative_lawful, few_forbidden};

use crate::access::Access;
use crate::records::KeyholderRecord;
use schemes::{AllOf, Colour, KeyholderSet, Scheme, SchemeRefusal};
use std::alloc::Global;

// The scheme in which the sets that contain one of the minimal sets are qualified. Its table comes from that of all of t,
// where t is the number of maximal forbidden sets.
#[derive(Drop)]
pub struct Cumulative {
    n: u8,
    minimal: Vec<KeyholderSet>,
    forbidden: Vec<KeyholderSet>,
    table: AllOf,
    ghost least: { 1 ≤ n },
    ghost most: { n ≤ most_keyholders },
    ghost listed: { 1 ≤ length (numbers minimal.items) },
    ghost proper: { (i : ℕ) → i < length (numbers minimal.items) → improper n (numbers minimal.items) i ≡ false },
    ghost found: { numbers forbidden.items ≡ forbidden_sets n (numbers minimal.items) },
    ghost rows: { length (forbidden_sets n (numbers minimal.items)) ≡ table.n },
}

impl Cumulative {
    // The scheme of one keyholder, who opens alone. Only want of memory is refused.
    pub fn new(heap: Global) -> Result<Cumulative, SchemeRefusal>
        ensures refusal { IfErr result (λ why. why ≡ Memory) }
        ensures made { IfOk result (λ s. (s.n ≡ 1) × (numbers s.minimal.items ≡ 1 ∷ [])) }
        ensures levels { OnOk result (LevelsOfSets 1 (1 ∷ [])) }
    {
        let minimal = Vec::from_slice(heap, &[KeyholderSet::everyone(1)])?;
        let forbidden = Vec::from_slice(heap, &[KeyholderSet::default()])?;
        let table = AllOf::new(1)?;
        Ok(Cumulative {
            n: 1,
            minimal,
            forbidden,
            table,
        })
    }

    // Makes the scheme of n keyholders and these minimal sets in the place of this one. Any refusal leaves it as it was.
    pub fn make(&mut self, heap: Global, n: u8, sets: &[KeyholderSet]) -> Result<(), SchemeRefusal>
        ensures refusal { ByRulesOrNoMemory (refusal_in result) (making_refusal n (numbers sets.now)) }
        ensures unchanged { OnErr result (self.new ≡ self.old) }
        ensures made { OnOk result ((self.new.n ≡ n) × (self.new.minimal.items ≡ sets.now)) }
        ensures access { OnOk result (OpensToQualified n (numbers sets.now)) }
        ensures levels { OnOk result (LevelsOfSets n (numbers sets.now)) }
    {
        let access = Access::new(n, sets)?;
        let minimal = Vec::from_slice(heap, sets)?;
        let forbidden = access.forbidden_sets(heap)?;
        let table = AllOf::new(forbidden.len() as u8)?;
        *self = Cumulative {
            n,
            minimal,
            forbidden,
            table,
        };
        Ok(())
    }

    // The minimal sets, in the order of the list.
    pub fn minimal_sets(&self) -> &[KeyholderSet]
        ensures { result.now ≡ self.now.minimal.items }
    {
        &self.minimal
    }

    // The maximal forbidden sets, in rising order.
    pub fn forbidden_sets(&self) -> &[KeyholderSet]
        ensures sets { numbers result.now ≡ forbidden_sets self.now.n (numbers self.now.minimal.items) }
        ensures exactly { IsForbiddenList self.now.n (numbers self.now.minimal.items) (numbers result.now) }
    {
        &self.forbidden
    }

    // The record of a keyholder: the numbers of the maximal forbidden sets that he is not in. It is empty for anybody who is
    // not one of keyholders 1 to n.
    pub fn record(&self, keyholder: u8) -> KeyholderRecord
        ensures { (q : ℕ) → noted result.rows.bits q ≡ in_record self.now.n (forbidden_sets self.now.n (numbers self.now.minimal.items)) keyholder q }
    {
        if !(1..=self.n).contains(&keyholder) {
            return KeyholderRecord::default();
        }
        KeyholderRecord::of(keyholder, &self.forbidden)
    }

    // Whether the record of a keyholder has the number q, by the forbidden set of that number alone.
    fn in_record(&self, keyholder: u8, q: u8) -> bool
        ensures { result ≡ in_record self.now.n (forbidden_sets self.now.n (numbers self.now.minimal.items)) keyholder q }
    {
        (1..=self.n).contains(&keyholder)
            && self
                .forbidden
                .get(usize::from(q))
                .is_some_and(|set| !set.has(keyholder))
    }

    // Whether one of the keyholder's rows of the table is black at the column. A chain asks for a clause that mirrors it.
    fn has_black_row(&self, colour: Colour, keyholder: u8, column: u8) -> bool
        ensures { result ≡ list_any (λ q. in_record self.now.n (forbidden_sets self.now.n (numbers self.now.minimal.items)) keyholder q && (all_of self.now.table.n).cell colour (q + 1) column) (range_with_len 0 self.now.table.n) }
    {
        (0..self.table.keyholders()).any(|q| self.in_record(keyholder, q)
            && self.table.cell(colour, q + 1, column))
    }
}

impl Scheme for Cumulative {
    ghost means = { λ s. cumulative s.n (numbers s.minimal.items) };

    ghost in_range = { λ s.
        cumulative_in_range s.n (numbers s.minimal.items)
        (record { least = s.least; most = s.most; some_set = s.listed; proper = s.proper })
        (few_forbidden _ _ s.rows s.table.most) };

    ghost lawful = { λ s.
        cumulative_lawful s.n (numbers s.minimal.items)
        (record { least = s.least; most = s.most; some_set = s.listed; proper = s.proper }) };

    fn keyholders(&self) -> u8 {
        self.n
    }

    fn columns(&self) -> u8 {
        self.table.columns()
    }

    fn cell(&self, colour: Colour, keyholder: u8, column: u8) -> bool {
        self.has_black_row(colour, keyholder, column)
    }

    fn qualified(&self, set: KeyholderSet) -> bool {
        let access = Access {
            n: self.n,
            minimal: &self.minimal,
        };
        set.is_among(self.n) && access.is_qualified(set)
    }
}
