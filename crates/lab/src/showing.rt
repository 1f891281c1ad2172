//! What one event did.

ghost use Rattle.std.specs.Prelude.{◌≡◌, ◌<◌, ◌≤◌, ◌∷◌, ◌==◌, ℕ, [], length, slice_index_or};
ghost use Rattle.std.specs.List.{position};
ghost use Rattle.std.specs.Option.{option_map};
ghost use Rattle.bus_order.specs.Order as order;
ghost use Rattle.residency.specs.Cache.{letter_of};
ghost use Rattle.el_model.specs.Next.{next};
ghost use Rattle.el_model.specs.State.{cache_of, ordered_of, raised_of};
ghost use Rattle.lab.specs.Shown.{AreLetters, IsSightOf, Tells, about_of};
ghost use Rattle.machine.specs.Story.{continued, left_of, state_of};
ghost use Rattle.mail.specs.Mailbox as mailbox;
ghost use Rattle.moesi.specs.declared.letter.Letter.TheVariants as letters;

use bus_order::Request;
use el_base::{Chronicled, Event, HartId, Kind, LineAddr, MAX_HARTS, Outcome};
use machine::{Armed, Asked, Live, Machine};
use mail::Message;
use moesi::Letter;
use rv_alu::{Action, HartView};

/// What a hart sees itself: in a live or an armed section what the section shows, else its committed view; and that
/// section.
#[derive(Clone, Copy, Debug, PartialEq, Eq)]
pub struct Sight {
    pub view: HartView,
    pub section: Option<Live>,
    pub armed: Option<Armed>,
}

/// What each hart's cache knows of a line, by the number of the hart; past the last hart, I.
pub type Letters = [Letter; MAX_HARTS as usize];

/// What one event was about.
#[derive(Clone, Copy, Debug, PartialEq, Eq)]
pub enum What {
    /// What the hart saw before the step, what it came to next, and what it saw after it.
    Step {
        before: Sight,
        action: Action,
        after: Sight,
    },
    /// The request that the hart had raised, and where a request of its hart stands in the order after the event, from 0 on.
    Order {
        request: Option<Request>,
        at: Option<usize>,
    },
    /// The request that the hart had in the order, with the letters of its line before the event and after it.
    Serve {
        request: Option<Request>,
        before: Letters,
        after: Letters,
    },
    /// The oldest message of the hart's mailbox; of a probe, also the request of its origin in the order.
    Deliver {
        message: Option<Message>,
        about: Option<Request>,
    },
}

/// One event, told.
#[derive(Clone, Copy, Debug, PartialEq, Eq)]
pub struct Shown {
    /// Its place in the history.
    pub place: u32,
    pub event: Event,
    pub outcome: Outcome,
    pub what: What,
}

/// Makes one event, and tells what it did.
pub fn show(machine: &mut Machine, event: Event) -> Shown
    requires hart_exists { event.hart.number < machine.old.config.harts }
    requires step_left { 1 ≤ left_of machine.old }
    ensures goes_on { machine.new ≡ continued machine.old (event ∷ []) }
    ensures place { result.place ≡ length machine.old.entries }
    ensures event { result.event ≡ event }
    ensures outcome { result.outcome ≡ (next (state_of machine.old) event).outcome }
    ensures what { Tells event.kind event.hart.number (state_of machine.old) (state_of machine.new) result.what }
{
    let place = machine.history().length();
    let hart = event.hart;
    match event.kind {
        Kind::Step => {
            let before = seen_by(machine, hart);
            let action = machine.next_action(hart);
            let outcome = machine.step(event);
            let after = seen_by(machine, hart);
            let what = What::Step {
                before,
                action,
                after,
            };
            Shown {
                place,
                event,
                outcome,
                what,
            }
        }
        Kind::Order => {
            let request = raised(machine, hart);
            let outcome = machine.step(event);
            let at = place_in_order(machine, hart);
            let what = What::Order { request, at };
            Shown {
                place,
                event,
                outcome,
                what,
            }
        }
        Kind::Serve => {
            let request = ordered(machine, hart);
            let was = letters_for(machine, request);
            let outcome = machine.step(event);
            let after = letters_for(machine, request);
            let what = What::Serve {
                request,
                before: was,
                after,
            };
            Shown {
                place,
                event,
                outcome,
                what,
            }
        }
        Kind::Deliver => {
            let message = machine.bus().agent(hart).message(0);
            let about = about(machine, message);
            let outcome = machine.step(event);
            let what = What::Deliver { message, about };
            Shown {
                place,
                event,
                outcome,
                what,
            }
        }
    }
}

/// What a hart sees.
fn seen_by(machine: &Machine, hart: HartId) -> Sight
    requires { hart.number < machine.now.config.harts }
    ensures { IsSightOf (state_of machine.now) hart.number result }
{
    Sight {
        view: machine.shown(hart),
        section: machine.section(hart),
        armed: machine.armed(hart),
    }
}

/// The request that a hart has raised.
fn raised(machine: &Machine, hart: HartId) -> Option<Request>
    requires { hart.number < machine.now.config.harts }
    ensures { option_map order.numbered result ≡ raised_of (state_of machine.now) hart.number }
{
    match machine.request(hart) {
        Asked::Raised { request } => Some(request),
        Asked::Placed { .. } => None,
        Asked::Nothing => None,
    }
}

/// Where a hart's request stands in the order.
fn place_in_order(machine: &Machine, hart: HartId) -> Option<usize>
    ensures { result ≡ position (λ request. request.hart == hart.number) (state_of machine.now).order }
{
    place_of(machine.bus().requests().as_slice(), hart)
}

/// Where a hart's request stands among others.
fn place_of(requests: &[Request], hart: HartId) -> Option<usize>
    ensures { result ≡ position (λ request. request.hart.number == hart.number) requests.now }
{
    requests
        .iter()
        .position(|request| request.hart.number == hart.number)
}

/// The request that a hart has in the order.
fn ordered(machine: &Machine, hart: HartId) -> Option<Request>
    ensures { option_map order.numbered result ≡ ordered_of (state_of machine.now) hart.number }
{
    machine.bus().requests().of(hart)
}

/// The request of a probe's origin in the order.
fn about(machine: &Machine, message: Option<Message>) -> Option<Request>
    ensures { option_map order.numbered result
        ≡ about_of (state_of machine.now) (option_map mailbox.numbered message) }
{
    match message {
        Some(Message::Probe { origin }) => ordered(machine, origin),
        Some(Message::Marker { .. }) => None,
        None => None,
    }
}

/// The letters of a request's line; where there is no request, all are I.
fn letters_for(machine: &Machine, request: Option<Request>) -> Letters
    ensures { AreLetters (state_of machine.now) (option_map order.numbered request) result }
{
    match request {
        Some(request) => letters_of(machine, request.line),
        None => [Letter::I; MAX_HARTS as usize],
    }
}

/// What each hart's cache knows of a line.
fn letters_of(machine: &Machine, line: LineAddr) -> Letters
    ensures { (h : ℕ) → h < length (state_of machine.now).harts →
        slice_index_or result h letters.I ≡ letter_of (cache_of (state_of machine.now) h) line.number }
{
    let bus = machine.bus();
    let harts = bus.harts();
    let mut letters = [Letter::I; MAX_HARTS as usize];
    for number in 0..MAX_HARTS {
        if usize::from(number) < harts {
            letters[usize::from(number)] = bus.sets(HartId { number }).letter(line);
        }
    }
    letters
}
