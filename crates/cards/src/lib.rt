// Smudged key cards: a group key in its TB7 form, of which some bytes are unreadable, restored group by group.
#![tactic(auto)]

ghost use Rattle.std.specs.Prelude.{◌≡◌, ◌+◌, ◌<◌, ◌≤◌};
ghost use Rattle.std.specs.List.{list_all};
ghost use Rattle.standard.specs.Answers.{card_answer};
ghost use Rattle.standard.specs.Cards.{unreadable as unreadable_of, readable as readable_of, erasures as erasures_of, group_parity, at_most_one, agrees as agrees_of};
ghost use Rattle.standard.specs.Cards.{restored as restored_of, key_of, restore_call};

use arrays::exactly;
use standard::{Refusal, RestoredCard};
use std::array;

// Where the card's four groups begin.
const GROUPS: [usize; 4] = [0, 4, 8, 12];

// The mask's bit of the byte at index i from the left is set.
#[tactic(auto, unfolding(standard::specs::Bytes::bit))]
fn unreadable_at(unreadable: u16, i: usize) -> bool
    requires { i < 16 }
    ensures { result ≡ unreadable_of unreadable i }
{
    (unreadable >> (15 - i)) % 2 == 1
}

// The readable bytes, and 0 in the place of the others.
fn readable(card: [u8; 16], unreadable: u16) -> [u8; 16]
    ensures { result ≡ readable_of card unreadable }
{
    array::from_fn(move |i| if unreadable_at(unreadable, i) {
        0
    } else {
        card[i]
    })
}

// How many bytes of the group from index a on are unreadable.
#[tactic(auto, using(crate::proofs::GroupLaws::erasures_are_ones))]
fn erasures(unreadable: u16, a: usize) -> u32
    requires { a ≤ 12 }
    ensures { result ≡ erasures_of unreadable a }
{
    ((unreadable >> (12 - a)) % 16).count_ones()
}

// The ⊕ of the group's readable bytes.
fn group_parity(read: [u8; 16], a: usize) -> u8
    requires { a ≤ 12 }
    ensures { result ≡ group_parity read a }
{
    read[a] ^ read[a + 1] ^ read[a + 2] ^ read[a + 3]
}

// No group has more than one unreadable byte.
fn at_most_one(unreadable: u16) -> bool
    ensures { result ≡ list_all (at_most_one unreadable) GROUPS }
{
    GROUPS.iter().all(|a| erasures(unreadable, *a) <= 1)
}

// In each group some byte is unreadable, or the fourth is the ⊕ of the others.
fn agree(read: [u8; 16], unreadable: u16) -> bool
    ensures { result ≡ list_all (agrees_of read unreadable) GROUPS }
{
    GROUPS.iter().all(|a| erasures(unreadable, *a) != 0 || group_parity(read, *a) == 0)
}

// Each unreadable byte from the others of its group.
fn restored(read: [u8; 16], unreadable: u16) -> [u8; 16]
    ensures { result ≡ restored_of read unreadable }
{
    array::from_fn(move |i| {
        if unreadable_at(unreadable, i) {
            group_parity(read, 4 * (i / 4))
        } else {
            read[i]
        }
    })
}

// The first three bytes of each group.
fn key_of(card: [u8; 16]) -> [u8; 12]
    ensures { result ≡ key_of card }
{
    array::from_fn(move |i| card[i + i / 3])
}

#[tactic(auto, unfolding(standard::specs::Cards::restore_call))]
pub fn restore_card(card: &[u8], unreadable: u16) -> Result<RestoredCard, Refusal>
    ensures { card_answer result ≡ restore_call card.now unreadable }
{
    let card = exactly(card)?;
    if !at_most_one(unreadable) {
        return Err(Refusal::GroupUnreadable);
    }
    let read = readable(card, unreadable);
    if !agree(read, unreadable) {
        return Err(Refusal::GroupDisagrees);
    }
    let card = restored(read, unreadable);
    let key = key_of(card);
    Ok(RestoredCard { key, card })
}
