//! The atomic steps of a pass, each of which is one event. None is tried again.

ghost use Rattle.std.specs.Prelude.{◌≡◌, ◌+◌, ◌-◌, ◌%◌, ◌^◌, ◌<◌, [], true};
ghost use Rattle.atomic_table.specs.Table.{Allows};
ghost use Rattle.move_core.specs.Events.{word_of, write_of};
ghost use Rattle.move_table.specs.Places.{number_in};
ghost use Rattle.move_table.specs.Standing.{terms_setup, AllStanding};
ghost use Rattle.move_table.specs.Seen.{IsKnownFound, AreCountsRead};
ghost use Rattle.move_table.specs.Steps.{IsReady, acted, step_amount, is_added, is_subtracted, is_stored, is_swapped};
ghost use Rattle.move_table.specs.Steps.{is_loaded, overwritten, IsResting, parted_view, made_view, united_view};

use crate::deed::{Deed, Does, Makes, TakesOver};
use crate::rule::Balanced;
use crate::view::{Terms, View};
use atomic_table::{Seat, Shared};
use move_core::Event;
use std::marker::Brand;

/// The words of a round, as its passes see them.
pub(crate) type Words = Shared<(), View, Terms, Balanced>;

/// The place of a pass at the words.
pub(crate) type Place = Seat<(), View>;

fn load_as<D: Deed>(words: &Words, seat: &mut Place, event: Event, word: usize) -> u64
    requires table { (seat.old.table_id ≡ words.now.table_id) × (word < words.now.table_id.words) }
    requires step { Allows (AllStanding words.now.key) words.now.table_id.slots seat.old.id seat.old.me word (λ n. n)
        (λ found after. (after ≡ (D.after found seat.old.me.0, seat.old.me.1)) × D.told seat.old.me.0 found) }
    ensures table { seat.new.table_id ≡ seat.old.table_id }
    ensures view { seat.new.me ≡ (D.after result seat.old.me.0, seat.old.me.1) }
    ensures told { D.told seat.old.me.0 result }
{
    let _ = event;
    words.load::<Does<D>>(seat, word)
}

/// Reads a word: one event. It tells of all counts that stand in the word.
pub(crate) fn load(words: &Words, seat: &mut Place, event: Event, word: usize) -> u64
    requires table { seat.old.table_id ≡ words.now.table_id }
    requires ready { IsReady words.now.table_id words.now.key seat.old.me.0 event word }
    requires step { is_loaded event ≡ true }
    ensures table { seat.new.table_id ≡ seat.old.table_id }
    ensures view { let v = seat.old.me.0 in let g = terms_setup v.terms in
        seat.new.me ≡ (acted event (number_in g (word_of g event v.account) result) v, seat.old.me.1) }
    ensures told { let v = seat.old.me.0 in let g = terms_setup v.terms in IsKnownFound g event v.account
        (number_in g (word_of g event v.account) result) }
    ensures counts { AreCountsRead (terms_setup seat.old.me.0.terms) seat.old.me.0.account word result }
{
    load_as::<Brand>(words, seat, event, word)
}

fn store_as<D: Deed>(words: &Words, seat: &mut Place, event: Event, word: usize, new: u64)
    requires table { (seat.old.table_id ≡ words.now.table_id) × (word < words.now.table_id.words) }
    requires step { Allows (AllStanding words.now.key) words.now.table_id.slots seat.old.id seat.old.me word
        (λ _. new)
        (λ _ after. (after ≡ (D.after new seat.old.me.0, seat.old.me.1)) × D.told seat.old.me.0 new) }
    ensures table { seat.new.table_id ≡ seat.old.table_id }
    ensures view { seat.new.me ≡ (D.after new seat.old.me.0, seat.old.me.1) }
    ensures told { D.told seat.old.me.0 new }
{
    let _ = event;
    words.store::<Does<D>>(seat, word, new);
}

/// Writes a word: one event.
pub(crate) fn store(words: &Words, seat: &mut Place, event: Event, word: usize, new: u64)
    requires table { seat.old.table_id ≡ words.now.table_id }
    requires ready { IsReady words.now.table_id words.now.key seat.old.me.0 event word }
    requires step { is_stored event ≡ true }
    requires value { let v = seat.old.me.0 in new ≡ write_of (terms_setup v.terms) event v.account 0 }
    ensures table { seat.new.table_id ≡ seat.old.table_id }
    ensures view { let v = seat.old.me.0 in let g = terms_setup v.terms in
        seat.new.me ≡ (acted event (overwritten g event v.account) v, seat.old.me.1) }
    ensures told { let v = seat.old.me.0 in let g = terms_setup v.terms in IsKnownFound g event v.account
        (overwritten g event v.account) }
{
    store_as::<Brand>(words, seat, event, word, new);
}

fn swap_as<D: Deed>(words: &Words, seat: &mut Place, event: Event, word: usize, new: u64) -> u64
    requires table { (seat.old.table_id ≡ words.now.table_id) × (word < words.now.table_id.words) }
    requires step { Allows (AllStanding words.now.key) words.now.table_id.slots seat.old.id seat.old.me word
        (λ _. new)
        (λ found after. (after ≡ (D.after found seat.old.me.0, seat.old.me.1)) × D.told seat.old.me.0 found) }
    ensures table { seat.new.table_id ≡ seat.old.table_id }
    ensures view { seat.new.me ≡ (D.after result seat.old.me.0, seat.old.me.1) }
    ensures told { D.told seat.old.me.0 result }
{
    let _ = event;
    words.swap::<Does<D>>(seat, word, new)
}

/// Writes a word and tells what stood there: one event.
pub(crate) fn swap(words: &Words, seat: &mut Place, event: Event, word: usize, new: u64) -> u64
    requires table { seat.old.table_id ≡ words.now.table_id }
    requires ready { IsReady words.now.table_id words.now.key seat.old.me.0 event word }
    requires step { is_swapped event ≡ true }
    requires value { new ≡ 1 }
    ensures table { seat.new.table_id ≡ seat.old.table_id }
    ensures view { let v = seat.old.me.0 in let g = terms_setup v.terms in
        seat.new.me ≡ (acted event (number_in g (word_of g event v.account) result) v, seat.old.me.1) }
    ensures told { let v = seat.old.me.0 in let g = terms_setup v.terms in IsKnownFound g event v.account
        (number_in g (word_of g event v.account) result) }
{
    swap_as::<Brand>(words, seat, event, word, new)
}

fn add_as<D: Deed>(words: &Words, seat: &mut Place, event: Event, word: usize, amount: u64) -> u64
    requires table { (seat.old.table_id ≡ words.now.table_id) × (word < words.now.table_id.words) }
    requires step { Allows (AllStanding words.now.key) words.now.table_id.slots seat.old.id seat.old.me word
        (λ n. (n + amount) % 2 ^ 64) (λ found after. (after ≡ (D.after found seat.old.me.0, seat.old.me.1)) × D.told
        seat.old.me.0 found) }
    ensures table { seat.new.table_id ≡ seat.old.table_id }
    ensures view { seat.new.me ≡ (D.after result seat.old.me.0, seat.old.me.1) }
    ensures told { D.told seat.old.me.0 result }
{
    let _ = event;
    words.fetch_add::<Does<D>>(seat, word, amount)
}

/// Adds to a word: one event.
pub(crate) fn add(words: &Words, seat: &mut Place, event: Event, word: usize, amount: u64) -> u64
    requires table { seat.old.table_id ≡ words.now.table_id }
    requires ready { IsReady words.now.table_id words.now.key seat.old.me.0 event word }
    requires step { is_added event ≡ true }
    requires amount { let v = seat.old.me.0 in amount ≡ step_amount (terms_setup v.terms) event v.account }
    ensures table { seat.new.table_id ≡ seat.old.table_id }
    ensures view { let v = seat.old.me.0 in let g = terms_setup v.terms in
        seat.new.me ≡ (acted event (number_in g (word_of g event v.account) result) v, seat.old.me.1) }
    ensures told { let v = seat.old.me.0 in let g = terms_setup v.terms in IsKnownFound g event v.account
        (number_in g (word_of g event v.account) result) }
{
    add_as::<Brand>(words, seat, event, word, amount)
}

fn subtract_as<D: Deed>(
    words: &Words,
    seat: &mut Place,
    event: Event,
    word: usize,
    amount: u64,
) -> u64
    requires table { (seat.old.table_id ≡ words.now.table_id) × (word < words.now.table_id.words) }
    requires step { Allows (AllStanding words.now.key) words.now.table_id.slots seat.old.id seat.old.me word
        (λ n. (n + (2 ^ 64 - amount)) % 2 ^ 64)
        (λ found after. (after ≡ (D.after found seat.old.me.0, seat.old.me.1)) × D.told seat.old.me.0 found) }
    ensures table { seat.new.table_id ≡ seat.old.table_id }
    ensures view { seat.new.me ≡ (D.after result seat.old.me.0, seat.old.me.1) }
    ensures told { D.told seat.old.me.0 result }
{
    let _ = event;
    words.fetch_sub::<Does<D>>(seat, word, amount)
}

/// Subtracts from a word: one event.
pub(crate) fn subtract(
    words: &Words,
    seat: &mut Place,
    event: Event,
    word: usize,
    amount: u64,
) -> u64
    requires table { seat.old.table_id ≡ words.now.table_id }
    requires ready { IsReady words.now.table_id words.now.key seat.old.me.0 event word }
    requires step { is_subtracted event ≡ true }
    requires amount { let v = seat.old.me.0 in amount ≡ step_amount (terms_setup v.terms) event v.account }
    ensures table { seat.new.table_id ≡ seat.old.table_id }
    ensures view { let v = seat.old.me.0 in let g = terms_setup v.terms in
        seat.new.me ≡ (acted event (number_in g (word_of g event v.account) result) v, seat.old.me.1) }
    ensures told { let v = seat.old.me.0 in let g = terms_setup v.terms in IsKnownFound g event v.account
        (number_in g (word_of g event v.account) result) }
{
    subtract_as::<Brand>(words, seat, event, word, amount)
}

/// Makes a pass, which has nothing: one event.
pub(crate) fn split(words: &Words, seat: &mut Place) -> Place
    requires table { (seat.old.table_id ≡ words.now.table_id) × (0 < words.now.table_id.words) }
    requires terms { seat.old.me.0.terms ≡ words.now.key }
    requires resting { IsResting seat.old.me.0 }
    requires may { 0 < seat.old.me.0.may }
    ensures table { (seat.new.table_id ≡ seat.old.table_id) × (result.table_id ≡ seat.old.table_id) }
    ensures view { seat.new.me ≡ (parted_view seat.old.me.0, seat.old.me.1) }
    ensures made { result.me ≡ (made_view seat.old.me.0, []) }
{
    words.split_seat::<Makes>(seat)
}

/// Takes another pass over, which ends: one event.
pub(crate) fn join(words: &Words, seat: &mut Place, other: Place)
    requires table { (seat.old.table_id ≡ words.now.table_id) × (other.table_id ≡ words.now.table_id) ×
        (0 < words.now.table_id.words) }
    requires empty { other.me.1 ≡ [] }
    requires first { seat.old.me.0.number ≡ 0 }
    requires resting { IsResting seat.old.me.0 × IsResting other.me.0 }
    ensures table { seat.new.table_id ≡ seat.old.table_id }
    ensures view { seat.new.me ≡ (united_view seat.old.me.0 other.me.0, seat.old.me.1) }
{
    words.join_seat::<TakesOver>(seat, other);
}
