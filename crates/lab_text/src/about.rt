//! Which events did something, and which have to do with an address.

ghost use Rattle.std.specs.Prelude.{◌≡◌};
ghost use Rattle.lab_text.specs.About as about;
ghost use Rattle.lab_text.specs.Items.{is_deed};
ghost use Rattle.rv_alu.specs.Footprint.{footprint};

use bus_order::Request;
use el_base::{LineAddr, Outcome, line_of};
use lab::{Shown, Sight, What};
use rv_alu::{Access, Action};
use section_ctl::{Armed, Live};

/// Whether an event did something: it was not idle, and no step that only waits for a request to be served.
pub fn did_something(shown: &Shown) -> bool
    ensures { result ≡ is_deed shown.now.outcome }
{
    match shown.outcome {
        Outcome::Idle | Outcome::Stalled => false,
        _ => true,
    }
}

/// Whether an event has to do with an address or its line: a step whose instruction stands at the address, or whose access
/// or whose section, where it begins, ends or is let go, is on the line; and an order, a serve or a probe of a request for
/// the line.
#[tactic(auto, unfolding(crate::specs::About::is_about))]
pub fn is_about(shown: &Shown, address: u32) -> bool
    ensures { result ≡ about.is_about shown.now address }
{
    let line = line_of(address);
    match &shown.what {
        What::Step {
            before,
            action,
            after,
        } => {
            before.view.pc == address
                || access_on(line, *action)
                || bounds_section_on(line, shown.outcome, before, after)
        }
        What::Order { request, .. } | What::Serve { request, .. } => request_on(line, *request),
        What::Deliver { about, .. } => request_on(line, *about),
    }
}

fn access_on(line: LineAddr, action: Action) -> bool
    ensures { result ≡ about.access_on line.number (footprint action) }
{
    match action.footprint() {
        Access::Read { address, .. } | Access::Write { address, .. } => {
            line_of(address).number == line.number
        }
        _ => false,
    }
}

/// Whether a section on a line begins, ends or is let go by a step of its own hart.
fn bounds_section_on(line: LineAddr, outcome: Outcome, before: &Sight, after: &Sight) -> bool
    ensures { result ≡ about.bounds_section_on line.number outcome before.now after.now }
{
    match outcome {
        Outcome::Began => section_on(line, after.section),
        Outcome::Committed { .. } | Outcome::RolledBack { .. } => section_on(line, before.section),
        Outcome::LetGo { .. } => armed_on(line, before.armed),
        _ => false,
    }
}

fn section_on(line: LineAddr, section: Option<Live>) -> bool
    ensures { result ≡ about.section_on line.number section }
{
    match section {
        Some(live) => line_of(live.word).number == line.number,
        None => false,
    }
}

fn armed_on(line: LineAddr, armed: Option<Armed>) -> bool
    ensures { result ≡ about.armed_on line.number armed }
{
    match armed {
        Some(armed) => line_of(armed.word).number == line.number,
        None => false,
    }
}

fn request_on(line: LineAddr, request: Option<Request>) -> bool
    ensures { result ≡ about.request_on line.number request }
{
    match request {
        Some(request) => request.line.number == line.number,
        None => false,
    }
}
