// Reading a card: its fields are found by the map, and the rules of the format are checked in the order of their numbers.
ghost use Rattle.std.specs.Prelude.{◌≡◌, ◌^◌, ◌<◌, length, option_map, MatchResult};
ghost use Rattle.cumulative.specs.Access.{numbers};
ghost use Rattle.cards.specs.Answers.{NoMemory, Answers};
ghost use Rattle.cards.specs.Contents.{contents};
ghost use Rattle.cards.specs.Format.{says, IsCard, NoCard, Canonical};
ghost use Rattle.cards.specs.Fields.{split_byte, split_sets, written, split_written, kind_place, sets_place, written_end, n_said, kind_said, sets_said, said};
ghost use Rattle.cards.specs.Schemes.{names_sets};
ghost use Rattle.cards.specs.Reading.{reading};

use crate::card::{ALL_BITS, KIND_BIT, N_BIT, SETS_BIT, UNWRITTEN_N};
use crate::rising::check_rising;
use crate::{Card, CardFault, CardKind, CardRefusal};
use schemes::KeyholderSet;
use std::alloc::Global;

// The place of n, after the map.
const N_AT: usize = 1;

// A byte, if it is written, and the bytes after it; nothing where they end before it.
fn split_byte(written: bool, bytes: &[u8]) -> Option<(Option<u8>, &[u8])>
    ensures { option_map (λ split. (split.0, split.1.now)) result ≡ split_byte written bytes.now }
{
    if !written {
        return Some((None, bytes));
    }
    let (byte, rest) = bytes.split_first()?;
    Some((Some(*byte), rest))
}

// A count and so many sets, if they are written, and the bytes after them; nothing where they end before.
fn split_sets(written: bool, bytes: &[u8]) -> Option<(Option<&[u8]>, &[u8])>
    ensures { option_map (λ split. (option_map (λ sets. sets.now) split.0, split.1.now)) result ≡ split_sets written bytes.now }
{
    if !written {
        return Some((None, bytes));
    }
    let (count, rest) = bytes.split_first()?;
    let (sets, left_over) = rest.split_at_checked(usize::from(*count))?;
    Some((Some(sets), left_over))
}

// The fields that are written after a map, the sets as a part of the card's bytes, and the bytes that are left over.
#[derive(Clone, Copy)]
struct Written<'a> {
    n: Option<u8>,
    kind: Option<u8>,
    sets: Option<&'a [u8]>,
    left_over: &'a [u8],
}

// What the fields say.
#[derive(Clone, Copy)]
struct Fields<'a> {
    kind: CardKind,
    n: u8,
    sets: &'a [u8],
}

impl<'a> Written<'a> {
    // The fields after a map, one after another; nothing where the card ends before they do.
    fn split(map: u8, bytes: &'a [u8]) -> Option<Written<'a>>
        ensures { option_map written result ≡ split_written map bytes.now }
    {
        let (n, rest) = split_byte(map & N_BIT != 0, bytes)?;
        let (kind, rest) = split_byte(map & KIND_BIT != 0, rest)?;
        let (sets, left_over) = split_sets(map & SETS_BIT != 0, rest)?;
        Some(Written {
            n,
            kind,
            sets,
            left_over,
        })
    }

    // The place of the kind.
    fn kind_at(&self) -> usize
        ensures { result ≡ kind_place self.now.n }
    {
        N_AT + usize::from(self.n.is_some())
    }

    // The place of the first set.
    fn sets_at(&self) -> usize
        ensures { result ≡ sets_place (written self.now) }
    {
        self.kind_at() + usize::from(self.kind.is_some()) + usize::from(self.sets.is_some())
    }

    // n, which is not written where it is 2.
    fn n(&self) -> Result<u8, CardFault>
        ensures { result ≡ n_said self.now.n }
    {
        match self.n {
            None => Ok(UNWRITTEN_N),
            Some(UNWRITTEN_N) => Err(CardFault::Format(CardRefusal::WrongValue, N_AT)),
            Some(n) => Ok(n),
        }
    }

    // The kind, which is not written for all of n.
    fn kind(&self) -> Result<CardKind, CardFault>
        ensures { result ≡ kind_said (kind_place self.now.n) self.now.kind }
    {
        let Some(number) = self.kind else {
            return Ok(CardKind::AllOf);
        };
        let wrong_value = CardFault::Format(CardRefusal::WrongValue, self.kind_at());
        CardKind::try_from(number)
            .ok()
            .filter(|kind| *kind != CardKind::AllOf)
            .ok_or(wrong_value)
    }

    // The sets of a card of this kind, in rising order.
    fn sets(&self, kind: CardKind) -> Result<&'a [u8], CardFault>
        requires { written_end (written self.now) < 2 ^ 64 }
        ensures { MatchResult result (λ sets. sets_said (written self.now) kind ≡ Ok sets.now) (λ e. sets_said (written self.now) kind ≡ Err e) }
    {
        match (kind, self.sets) {
            (CardKind::Sets, Some(sets)) => {
                check_rising(sets, self.sets_at())?;
                Ok(sets)
            }
            (CardKind::AllOf | CardKind::TwoOf, None) => Ok(&[]),
            _ => Err(CardFault::Format(CardRefusal::WrongSets, 0)),
        }
    }

    // What the fields say, or the first rule that they break.
    fn fields(&self) -> Result<Fields<'a>, CardFault>
        ensures { MatchResult result (λ f. said (written self.now) ≡ Ok (says f.kind f.n f.sets.now)) (λ e. said (written self.now) ≡ Err e) }
    {
        let n = self.n()?;
        let kind = self.kind()?;
        let end = self.sets_at() + self.sets.map_or(0, |sets| sets.len());
        if !self.left_over.is_empty() {
            return Err(CardFault::Format(CardRefusal::BytesLeftOver, end));
        }
        let sets = self.sets(kind)?;
        Ok(Fields { kind, n, sets })
    }
}

// The fields of a card, or its first fault. Nothing is copied.
fn split_fields(bytes: &[u8]) -> Result<Fields<'_>, CardFault>
    ensures { MatchResult result (λ f. reading bytes.now ≡ Ok (says f.kind f.n f.sets.now)) (λ e. reading bytes.now ≡ Err e) }
{
    let wrong_map = CardFault::Format(CardRefusal::WrongMap, 0);
    let (map, rest) = bytes.split_first().ok_or(wrong_map)?;
    if *map > ALL_BITS {
        return Err(wrong_map);
    }
    let ends_early = CardFault::Format(CardRefusal::EndsEarly, bytes.len());
    let written = Written::split(*map, rest).ok_or(ends_early)?;
    written.fields()
}

// The sets of these numbers. Memory is needed for the first of them.
fn sets_of(heap: Global, bytes: &[u8]) -> Result<Vec<KeyholderSet>, CardFault>
    ensures { MatchResult result (λ v. numbers v.items ≡ bytes.now) (λ e. NoMemory e × (0 < length bytes.now)) }
{
    if bytes.is_empty() {
        return Ok(Vec::new(heap));
    }
    let sets = bytes.iter().map(|byte| KeyholderSet::from_bits(*byte));
    Ok(sets.collect(heap)?)
}

// Reads a card, or answers its first fault in the order of the refusals' numbers, 12 to 16. Whether the scheme can be made is asked
// by `open`. Only a card of sets needs memory.
pub fn read(heap: Global, bytes: &[u8]) -> Result<Card, CardFault>
    ensures answers { Answers contents (reading bytes.now) (names_sets (reading bytes.now)) result }
    ensures exactly_cards { MatchResult result (λ card. IsCard bytes.now (contents card)) (λ e. (NoMemory e → ⊥) → NoCard bytes.now) }
    ensures canonical { Canonical }
{
    let fields = split_fields(bytes)?;
    let sets = sets_of(heap, fields.sets)?;
    Ok(Card {
        kind: fields.kind,
        n: fields.n,
        sets,
    })
}
