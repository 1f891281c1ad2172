//! A hart's mailbox: messages of lock removal, oldest first, none twice.
//!
//! It stands on `el_base` and `circular_buffer`. A mailbox is seen as the list of its messages, oldest
//! first, and each call as the definition's function on that list, in `specs/Mailbox.antt`. What is in
//! the box after each call stands as lemmas in `proofs/Laws/LookUps.antt`. Only [`Mail::make`] takes memory.
//!
//! Where a doc comment names no other source, its rule is this project's profile.
#![tactic(auto)]

mod mail;
mod message;

pub use mail::Mail;
pub use message::Message;
