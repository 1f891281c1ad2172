//! The items of an event, by what it was about and by its outcome.

ghost use Rattle.std.specs.Prelude.{◌≡◌, ◌≤◌, ◌+◌, ◌++◌, [], slice_index_or};
ghost use Rattle.arrayvec.specs.ArrayVec.{array_vec_len};
ghost use Rattle.el_base.specs.Freed.{count_in};
ghost use Rattle.el_base.specs.Losers.{beaten_by};
ghost use Rattle.lab_text.specs.Items.{
  about_items,
  freed_item,
  freed_items,
  letter_item,
  letter_items,
  loss_item,
  loss_items,
  message_items,
  place_items,
  outcome_items,
  request_items,
  same_letter,
  what_items,
};
ghost use Rattle.moesi.specs.declared.letter.Letter.TheVariants as letters;

use crate::items::{Item, List};
use crate::steps::tell_step;
use bus_order::Request;
use el_base::{Freed, HartId, Losers, MAX_HARTS, Outcome};
use lab::{Letters, What};
use mail::Message;
use moesi::Letter;

/// What an event was about.
pub(crate) fn tell_what(list: &mut List, outcome: Outcome, what: &What)
    requires { list.old.items ≡ [] }
    ensures items { list.new.items ≡ what_items outcome what.now }
    ensures few { array_vec_len list.new ≤ 40 }
{
    match what {
        What::Step {
            before,
            action,
            after,
        } => tell_step(list, outcome, before, *action, after),
        What::Order { request, at } => {
            tell_request(list, *request);
            tell_place(list, *at);
        }
        What::Serve {
            request,
            before,
            after,
        } => {
            tell_request(list, *request);
            tell_letters(list, before, after);
        }
        What::Deliver { message, about } => {
            tell_message(list, *message);
            tell_about(list, *about);
        }
    }
}

fn tell_request(list: &mut List, request: Option<Request>)
    requires { array_vec_len list.old ≤ 8 }
    ensures items { list.new.items ≡ list.old.items ++ request_items request }
    ensures few { array_vec_len list.new ≤ array_vec_len list.old + 1 }
{
    if let Some(request) = request {
        list.push(Item::Asked { request });
    }
}

fn tell_place(list: &mut List, at: Option<usize>)
    requires { array_vec_len list.old ≤ 9 }
    ensures items { list.new.items ≡ list.old.items ++ place_items at }
    ensures few { array_vec_len list.new ≤ array_vec_len list.old + 1 }
{
    if let Some(place) = at {
        list.push(Item::At { place });
    }
}

fn tell_message(list: &mut List, message: Option<Message>)
    requires { array_vec_len list.old ≤ 8 }
    ensures items { list.new.items ≡ list.old.items ++ message_items message }
    ensures few { array_vec_len list.new ≤ array_vec_len list.old + 1 }
{
    if let Some(message) = message {
        list.push(Item::Took { message });
    }
}

fn tell_about(list: &mut List, request: Option<Request>)
    requires { array_vec_len list.old ≤ 8 }
    ensures items { list.new.items ≡ list.old.items ++ about_items request }
    ensures few { array_vec_len list.new ≤ array_vec_len list.old + 1 }
{
    if let Some(request) = request {
        list.push(Item::About { request });
    }
}

/// What each hart's cache knows now that it did not know before.
fn tell_letters(list: &mut List, before: &Letters, after: &Letters)
    requires { array_vec_len list.old ≤ 8 }
    ensures items { list.new.items ≡ list.old.items ++ letter_items before.now after.now }
    ensures few { array_vec_len list.new ≤ array_vec_len list.old + 8 }
{
    for number in 0..MAX_HARTS {
        tell_letter(list, HartId { number }, before, after);
    }
}

fn tell_letter(list: &mut List, hart: HartId, before: &Letters, after: &Letters)
    requires { array_vec_len list.old ≤ 16 }
    ensures items { list.new.items ≡ list.old.items ++ letter_item hart.number
        (slice_index_or before.now hart.number letters.I) (slice_index_or after.now hart.number letters.I) }
    ensures few { array_vec_len list.new ≤ array_vec_len list.old + 1 }
{
    let from = before[usize::from(hart.number)];
    let to = after[usize::from(hart.number)];
    tell_turn(list, hart, from, to);
}

#[tactic(auto, using(crate::proofs::Putting::hart_back))]
fn tell_turn(list: &mut List, hart: HartId, from: Letter, to: Letter)
    requires { array_vec_len list.old ≤ 16 }
    ensures items { list.new.items ≡ list.old.items ++ letter_item hart.number from to }
    ensures few { array_vec_len list.new ≤ array_vec_len list.old + 1 }
{
    if !is_same(from, to) {
        list.push(Item::Turned { hart, from, to });
    }
}

fn is_same(a: Letter, b: Letter) -> bool
    ensures { result ≡ same_letter a b }
{
    a == b
}

/// What came of an event for other harts.
pub(crate) fn tell_outcome(list: &mut List, outcome: Outcome)
    requires { array_vec_len list.old ≤ 40 }
    ensures { list.new.items ≡ list.old.items ++ outcome_items outcome }
{
    match outcome {
        Outcome::Blocked { why, by } => list.push(Item::Blocked { why, by }),
        Outcome::Ordered { losers, freed } | Outcome::Served { losers, freed } => {
            tell_losses(list, losers);
            tell_freed(list, freed);
        }
        Outcome::Delivered { losers } => tell_losses(list, losers),
        _ => (),
    }
}

fn tell_losses(list: &mut List, losers: Losers)
    requires { array_vec_len list.old ≤ 40 }
    ensures items { list.new.items ≡ list.old.items ++ loss_items losers }
    ensures few { array_vec_len list.new ≤ array_vec_len list.old + 8 }
{
    for number in 0..MAX_HARTS {
        tell_loss(list, losers, HartId { number });
    }
}

#[tactic(auto, using(crate::proofs::Putting::hart_back))]
fn tell_loss(list: &mut List, losers: Losers, loser: HartId)
    requires { array_vec_len list.old ≤ 48 }
    ensures items { list.new.items ≡ list.old.items ++ loss_item loser.number (beaten_by losers loser.number) }
    ensures few { array_vec_len list.new ≤ array_vec_len list.old + 1 }
{
    if let Some(winner) = losers.winner_of(loser) {
        list.push(Item::Lost { loser, winner });
    }
}

fn tell_freed(list: &mut List, freed: Freed)
    requires { array_vec_len list.old ≤ 48 }
    ensures items { list.new.items ≡ list.old.items ++ freed_items freed }
    ensures few { array_vec_len list.new ≤ array_vec_len list.old + 8 }
{
    for number in 0..MAX_HARTS {
        tell_freed_hart(list, freed, HartId { number });
    }
}

#[tactic(auto, using(crate::proofs::Putting::hart_back))]
fn tell_freed_hart(list: &mut List, freed: Freed, hart: HartId)
    requires { array_vec_len list.old ≤ 56 }
    ensures items { list.new.items ≡ list.old.items ++ freed_item hart.number (count_in freed hart.number) }
    ensures few { array_vec_len list.new ≤ array_vec_len list.old + 1 }
{
    let count = freed.count_of(hart);
    if count > 0 {
        list.push(Item::Freed { hart, count });
    }
}
