//! Mailboxes of a few messages, worked by hand.

use crate::asserts::same;
use crate::harts::hart;
use mail::*;
use std::alloc::Global;
use std::process::Abort;
use std::test::Fail;

fn marker(number: u8) -> Message {
    Message::Marker { from: hart(number) }
}

fn probe(number: u8) -> Message {
    Message::Probe {
        origin: hart(number),
    }
}

fn wanted(number: u8, is_marker: bool) -> Message {
    if is_marker {
        marker(number)
    } else {
        probe(number)
    }
}

fn boxed(alloc: Global, posts: &[(u8, bool)]) -> Result<Mail, Fail> {
    let mut mail = Mail::make(alloc).map_err(|_error| "no memory")?;
    for (number, is_marker) in posts {
        mail.post(wanted(*number, *is_marker));
    }
    Ok(mail)
}

/// Takes all messages, which must be these.
fn holds(rt: &impl Abort, mail: &mut Mail, messages: &[(u8, bool)]) {
    for (number, is_marker) in messages {
        takes(rt, mail, wanted(*number, *is_marker));
    }
    same(rt, (mail.is_empty(), mail.next()), (true, None));
}

/// Takes the oldest message, which must be this.
fn takes(rt: &impl Abort, mail: &mut Mail, message: Message) {
    same(rt, (mail.is_empty(), mail.next()), (false, Some(message)));
}

#[test]
fn the_oldest_message_is_taken_and_none_stands_twice(rt: HostRuntime) -> Result<(), Fail> {
    let posts = [
        (3, true),
        (3, false),
        (3, true),
        (1, true),
        (3, false),
        (0, false),
    ];
    let mut mail = boxed(rt.alloc(), &posts)?;
    holds(
        &rt,
        &mut mail,
        &[(3, true), (3, false), (1, true), (0, false)],
    );
    Ok(())
}

#[test]
fn a_message_that_was_taken_may_come_again(rt: HostRuntime) -> Result<(), Fail> {
    let mut mail = boxed(rt.alloc(), &[(3, true), (4, true)])?;
    takes(&rt, &mut mail, marker(3));
    mail.post(marker(3));
    holds(&rt, &mut mail, &[(4, true), (3, true)]);
    Ok(())
}

#[test]
fn a_full_box_has_a_marker_and_a_probe_of_each_hart(rt: HostRuntime) -> Result<(), Fail> {
    let mut mail = boxed(rt.alloc(), &[])?;
    for _again in 0..2 {
        for number in 0..8 {
            mail.post(probe(number));
            mail.post(marker(7 - number));
        }
    }
    for number in 0..8 {
        takes(&rt, &mut mail, probe(number));
        takes(&rt, &mut mail, marker(7 - number));
    }
    holds(&rt, &mut mail, &[]);
    Ok(())
}

#[test]
fn a_purge_leaves_the_others_in_their_order(rt: HostRuntime) -> Result<(), Fail> {
    let posts = [(2, true), (2, false), (5, false), (1, true), (0, false)];
    let mut mail = boxed(rt.alloc(), &posts)?;
    mail.purge(hart(2));
    mail.purge(hart(7));
    holds(
        &rt,
        &mut mail,
        &[(2, true), (5, false), (1, true), (0, false)],
    );
    let mut mail = boxed(rt.alloc(), &posts)?;
    mail.purge_markers();
    holds(&rt, &mut mail, &[(2, false), (5, false), (0, false)]);
    Ok(())
}
