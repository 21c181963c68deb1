// Writing a card: what no card can say is refused, and the rest is laid out field by field.
ghost use Rattle.std.specs.Prelude.{◌≡◌, ◌<◌, [], ◌∷◌, ◌++◌, length, option_map, IfOk, MatchResult};
ghost use Rattle.schemes.specs.Refusals.{refusal_in};
ghost use Rattle.cumulative.specs.Access.{numbers};
ghost use Rattle.cards.specs.Answers.{NoMemory, Answers};
ghost use Rattle.cards.specs.Contents.{contents};
ghost use Rattle.cards.specs.Format.{map_from, field_bytes, n_field, kind_field, sets_field, card_fields, card_bytes};
ghost use Rattle.cards.specs.Schemes.{OpensAs};
ghost use Rattle.cards.specs.declared.card.CardKind.TheVariants.{Sets};
ghost use Rattle.cards.specs.Writing.{first_set_at, sets_fault, sets_fit, writing, RefusesAsOpening, Acceptable};

use crate::card::{KIND_BIT, N_BIT, SETS_BIT, UNWRITTEN_N};
use crate::rising::check_rising;
use crate::{Card, CardFault, CardKind, CardRefusal, scheme};
use schemes::KeyholderSet;
use std::alloc::Global;

// The place of the first set: after the map, n where it is written, the kind and the count.
fn first_set_at(n: u8) -> usize
    ensures { result ≡ first_set_at n }
{
    if n == UNWRITTEN_N { 3 } else { 4 }
}

// That a card of this kind can hold these sets: none unless the kind is `Sets`, and each above the one before it.
fn check_sets(kind: CardKind, n: u8, sets: &[KeyholderSet]) -> Result<(), CardFault>
    ensures { refusal_in result ≡ sets_fault kind n (numbers sets.now) }
{
    match kind {
        CardKind::AllOf | CardKind::TwoOf if sets.is_empty() => Ok(()),
        CardKind::AllOf | CardKind::TwoOf => Err(CardFault::Format(CardRefusal::WrongSets, 0)),
        CardKind::Sets => check_rising(sets, first_set_at(n)),
    }
}

// The map of the fields that are written.
fn map_of(card: &Card) -> u8
    ensures { result ≡ map_from 0 (card_fields (contents card.now)) }
{
    N_BIT * u8::from(card.n != UNWRITTEN_N)
        + KIND_BIT * u8::from(card.kind != CardKind::AllOf)
        + SETS_BIT * u8::from(card.kind == CardKind::Sets)
}

// n, unless it is left out.
fn written_n(n: u8) -> Option<u8>
    ensures { option_map (λ byte. byte ∷ []) result ≡ n_field n }
{
    (n != UNWRITTEN_N).then_some(n)
}

// The kind's number, unless it is left out.
fn written_kind(kind: CardKind) -> Option<u8>
    ensures { option_map (λ byte. byte ∷ []) result ≡ kind_field kind }
{
    (kind != CardKind::AllOf).then_some(kind.number())
}

// Pushes a byte, unless it is left out.
fn push_byte(bytes: &mut Vec<u8>, byte: Option<u8>) -> Result<(), CardFault>
    ensures { MatchResult result (λ _. bytes.new.items ≡ bytes.old.items ++ field_bytes (option_map (λ byte. byte ∷ []) byte ∷ [])) NoMemory }
{
    if let Some(byte) = byte {
        bytes.push(byte)?;
    }
    Ok(())
}

// Pushes the count of the sets and the sets, for the kind that has them.
fn push_sets(bytes: &mut Vec<u8>, kind: CardKind, sets: &[KeyholderSet]) -> Result<(), CardFault>
    requires { kind ≡ Sets → length sets.now < 256 }
    ensures { MatchResult result (λ _. bytes.new.items ≡ bytes.old.items ++ field_bytes (sets_field kind (numbers sets.now) ∷ [])) NoMemory }
{
    if kind == CardKind::Sets {
        bytes.push(sets.len() as u8)?;
        bytes.extend(sets.iter().map(|set| set.bits()))?;
    }
    Ok(())
}

// The bytes of the card.
fn lay_out(heap: Global, card: &Card) -> Result<Vec<u8>, CardFault>
    requires { card.now.kind ≡ Sets → length card.now.sets.items < 256 }
    ensures { MatchResult result (λ bytes. bytes.items ≡ card_bytes (contents card.now)) NoMemory }
{
    let mut bytes = Vec::new(heap);
    bytes.push(map_of(card))?;
    push_byte(&mut bytes, written_n(card.n))?;
    push_byte(&mut bytes, written_kind(card.kind))?;
    push_sets(&mut bytes, card.kind, &card.sets)?;
    Ok(bytes)
}

// Writes the card, or answers why no card says this: 16 where the sets do not fit the kind or do not rise, at the place where
// reading such a card would answer it, and then the refusals of making the scheme, 7 to 11. So what is written opens again.
pub fn write(heap: Global, card: &Card) -> Result<Vec<u8>, CardFault>
    ensures answers { Answers (λ v. v.items) (writing (contents card.now)) (sets_fit (contents card.now)) result }
    ensures opens_again { IfOk result (λ v. OpensAs v.items (contents card.now)) }
    ensures as_opening { RefusesAsOpening (contents card.now) }
    ensures every_card { Acceptable (contents card.now) → MatchResult result (λ v. v.items ≡ card_bytes (contents card.now)) NoMemory }
{
    check_sets(card.kind, card.n, &card.sets)?;
    let _named = scheme(heap, card)?;
    lay_out(heap, card)
}
