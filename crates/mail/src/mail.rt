ghost use Rattle.std.specs.Prelude.{◌≡◌, ◌≤◌, [], length, IfOk, ◌==◌, slice_get};
ghost use Rattle.std.specs.List.{list_any};
ghost use Rattle.std.specs.Option.{option_map};
ghost use Rattle.circular_buffer.specs.Buffer.{buffer};
ghost use Rattle.mail.specs.Mailbox.{numbered, same_message};
ghost use Rattle.mail.specs.Withdrawn.{remaining, turned, withdraws};

use crate::message::Message;
use circular_buffer::HeapCircularBuffer;
use el_base::{HartId, NoMemory};
use std::alloc::Global;
use std::marker::Model;

/// How many messages a mailbox has places for: a marker and a probe of each hart.
const PLACES: usize = 16;

/// A hart's mailbox.
#[derive(Drop)]
pub struct Mail {
    messages: HeapCircularBuffer<Message>,
}

impl Model for Mail {
    ghost use Rattle.std.specs.Prelude.{List, map};
    ghost use Rattle.mail.specs.Kept.{IsBox};
    ghost use Rattle.mail.specs.Mailbox as definition;

    ghost Value = { List definition.Message };

    ghost view = { λ mail. map definition.numbered mail.messages.items };

    ghost invariant = { λ mail. IsBox mail.messages };
}

impl Mail {
    ghost use Rattle.mail.specs.Mailbox as definition;

    /// An empty mailbox.
    pub fn make(alloc: Global) -> Result<Mail, NoMemory>
        ensures { IfOk result (λ mail. mail ≡ []) }
    {
        let messages = HeapCircularBuffer::with_capacity(alloc, PLACES)?;
        Ok(Mail { messages })
    }

    /// Puts a message behind all others. One that is in the box already is not put there twice.
    #[tactic(auto, using(crate::proofs::Boxes::has_any, crate::proofs::Boxes::post_new, crate::proofs::Boxes::known))]
    pub fn post(&mut self, message: Message)
        ensures { self.new ≡ definition.posted self.old (definition.numbered message) }
    {
        if !has(&self.messages, message) {
            self.messages.push_back(message);
        }
    }

    /// Takes the oldest message, or answers `None` where the box is empty.
    #[tactic(auto, using(crate::proofs::Boxes::oldest_of_items, crate::proofs::Boxes::others_of_items))]
    pub fn next(&mut self) -> Option<Message>
        ensures oldest { option_map definition.numbered result ≡ definition.oldest self.old }
        ensures others_stay { self.new ≡ definition.without_oldest self.old }
    {
        self.messages.pop_front()
    }

    /// The message at a place, of which the oldest has 0; `None` past the last one.
    #[tactic(auto, using(crate::proofs::Boxes::message_of_items))]
    pub fn message(&self, place: usize) -> Option<Message>
        ensures { option_map definition.numbered result ≡ slice_get self.now place }
    {
        self.messages.get(place).copied()
    }

    /// Whether there is no message in the box.
    pub fn is_empty(&self) -> bool
        ensures { result ≡ (length self.now == 0) }
    {
        self.messages.is_empty()
    }

    /// Takes out the probe of an origin, if it is in the box.
    #[tactic(auto, using(crate::proofs::Withdrawals::probe_remaining))]
    pub fn purge(&mut self, origin: HartId)
        ensures { self.new ≡ definition.without_probe self.old origin.number }
    {
        withdraw(&mut self.messages, Withdrawn::ProbeOf { origin });
    }

    /// Takes out all markers.
    #[tactic(auto, using(crate::proofs::Withdrawals::markers_remaining))]
    pub fn purge_markers(&mut self)
        ensures { self.new ≡ definition.without_markers self.old }
    {
        withdraw(&mut self.messages, Withdrawn::Markers);
    }
}

/// The messages that are taken out of a mailbox at once.
#[derive(Clone, Copy)]
enum Withdrawn {
    Markers,
    ProbeOf { origin: HartId },
}

impl Withdrawn {
    /// Whether a message is one of them.
    fn has(self, message: Message) -> bool
        ensures { result ≡ withdraws self (numbered message) }
    {
        match (self, message) {
            (Withdrawn::Markers, Message::Marker { .. }) => true,
            (Withdrawn::Markers, Message::Probe { .. }) => false,
            (Withdrawn::ProbeOf { .. }, Message::Marker { .. }) => false,
            (Withdrawn::ProbeOf { origin }, Message::Probe { origin: other }) => origin == other,
        }
    }
}

/// Whether a message is among these.
fn has(messages: &HeapCircularBuffer<Message>, message: Message) -> bool
    ensures { result ≡ list_any (λ other. same_message (numbered other) (numbered message)) messages.now.items }
{
    messages.iter().any(|other| is_same(*other, message))
}

fn is_same(left: Message, right: Message) -> bool
    ensures { result ≡ same_message (numbered left) (numbered right) }
{
    left == right
}

/// Takes messages out, and leaves the others in their order.
#[tactic(auto, using(crate::proofs::Withdrawals::turned_more, crate::proofs::Withdrawals::length_of_turned))]
fn withdraw(messages: &mut HeapCircularBuffer<Message>, withdrawn: Withdrawn)
    ensures { messages.new ≡ buffer (remaining withdrawn messages.old.items) messages.old.capacity }
{
    for _place in 0..messages.len() {
        turn(messages, withdrawn);
    }
}

/// Takes the oldest message out, and puts it behind all others unless it is withdrawn.
fn turn(messages: &mut HeapCircularBuffer<Message>, withdrawn: Withdrawn)
    requires { length messages.old.items ≤ messages.old.capacity }
    ensures { messages.new ≡ buffer (turned withdrawn messages.old.items) messages.old.capacity }
{
    if let Some(message) = messages.pop_front() {
        if !withdrawn.has(message) {
            messages.push_back(message);
        }
    }
}
