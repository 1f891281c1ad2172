//! What happened to lines.

ghost use Rattle.std.specs.Prelude.{◌≡◌, ◌<◌, ◌++◌, OnOk};
ghost use Rattle.std.specs.Option.{option_map};
ghost use Rattle.bus_order.specs.Order as order;
ghost use Rattle.el_base.specs.Losers.{beaten_by};
ghost use Rattle.el_base.specs.declared.events.Kind.TheVariants as kinds;
ghost use Rattle.el_base.specs.declared.outcomes.Outcome.TheVariants as outcomes;
ghost use Rattle.el_model.specs.State.{cache_of, ordered_of};
ghost use Rattle.machine.specs.EngineMemory.{back_for, if_dirty, leaving_line};
ghost use Rattle.lab.specs.Asked.{numbered_asking};
ghost use Rattle.lab.specs.Lines.{asked_in, back_facts, facts_by, if_served, losses_below, owner_facts, owner_in, owns, same_owner, served_facts};
ghost use Rattle.machine.specs.Story.{state_of};

use crate::tries::waited_for;
use bus_order::Request;
use cache_sets::Sets;
use el_base::{Event, HartId, Kind, LineAddr, Losers, MAX_HARTS, Need, NoMemory, Outcome};
use machine::Machine;
use moesi::{Letter, is_dirty};

/// What happened to a line at an event.
#[derive(Clone, Copy, Debug, PartialEq, Eq)]
pub enum LineFact {
    /// A step of the hart raised a request for it.
    Missed {
        hart: HartId,
        need: Need,
    },
    /// A request of the hart for it was served.
    Served {
        hart: HartId,
        need: Need,
    },
    /// As a request for it was served, it changed its owner: the hart whose cache has it as M, O or E.
    Owner {
        from: Option<HartId>,
        to: Option<HartId>,
    },
    /// The loser's section was lost to the winner, which waits for the line.
    Lost {
        winner: HartId,
        loser: HartId,
    },
    /// As a request of the hart for another line was served, it left the hart's cache, which had it as M or O: main memory
    /// has its bytes from then on.
    WroteBack {
        hart: HartId,
    },
}

/// A fact about a line, with the place of its event in the history.
#[derive(Clone, Copy, Debug, PartialEq, Eq)]
pub struct Fact {
    pub place: u32,
    /// None at most of a loss: where the winner waits for no line.
    pub line: Option<LineAddr>,
    pub what: LineFact,
}

/// What a hart asks of a line, and who owns the line.
#[derive(Clone, Copy)]
pub(crate) struct Asking {
    pub(crate) request: Request,
    pub(crate) owner: Option<HartId>,
}

/// What the hart of a serve asks for.
pub(crate) fn asked_before(machine: &Machine, event: Event) -> Option<Asking>
    ensures { event.kind ≡ kinds.Serve →
        option_map numbered_asking result ≡ asked_in (state_of machine.now) event.hart.number }
{
    match event.kind {
        Kind::Serve => asked(machine, event.hart),
        _ => None,
    }
}

/// What a hart asks for in the order.
fn asked(machine: &Machine, hart: HartId) -> Option<Asking>
    ensures { option_map numbered_asking result ≡ asked_in (state_of machine.now) hart.number }
{
    match machine.bus().requests().of(hart) {
        Some(request) => Some(Asking {
            request,
            owner: owner_of(machine, request.line),
        }),
        None => None,
    }
}

/// The hart whose cache owns a line, if one does.
fn owner_of(machine: &Machine, line: LineAddr) -> Option<HartId>
    ensures { option_map (λ hart. hart.number) result ≡ owner_in (state_of machine.now) line.number }
{
    let bus = machine.bus();
    let harts = bus.harts();
    let mut owner = None;
    for number in 0..MAX_HARTS {
        if usize::from(number) < harts {
            let hart = HartId { number };
            if owns(bus.sets(hart).letter(line)) {
                owner = Some(hart);
            }
        }
    }
    owner
}

/// Whether the cache with this letter owns its line. (The letters are those of P. Sweazey and A. J. Smith, 'A Class of
/// Compatible Cache Consistency Protocols', ISCA 1986.)
fn owns(letter: Letter) -> bool
    ensures { result ≡ owns letter }
{
    match letter {
        Letter::M | Letter::O | Letter::E => true,
        Letter::S | Letter::I => false,
    }
}

/// The line that is written back where the request of an event's hart is served.
pub(crate) fn back_before(machine: &Machine, event: Event) -> Option<LineAddr>
    requires hart_exists { event.hart.number < machine.now.config.harts }
    ensures { event.kind ≡ kinds.Serve → option_map (λ line. line.number) result
        ≡ back_for (state_of machine.now) event.hart.number (ordered_of (state_of machine.now) event.hart.number) }
{
    match event.kind {
        Kind::Serve => {
            let request = machine.bus().requests().of(event.hart)?;
            back_for(machine, event.hart, request.line)
        }
        _ => None,
    }
}

/// The line that is written back where a request of a hart for this one is served.
fn back_for(machine: &Machine, hart: HartId, line: LineAddr) -> Option<LineAddr>
    requires hart_exists { hart.number < machine.now.config.harts }
    ensures { option_map (λ line. line.number) result ≡ if_dirty (cache_of (state_of machine.now) hart.number)
        (leaving_line (state_of machine.now).config.ways (cache_of (state_of machine.now) hart.number) line.number) }
{
    let sets = machine.bus().sets(hart);
    if_dirty(sets, leaving(sets, line))
}

/// The line that leaves a cache as this one comes: none where this one is there.
fn leaving(sets: &Sets, line: LineAddr) -> Option<LineAddr>
    ensures { option_map (λ line. line.number) result ≡ leaving_line sets.now.ways sets.now.residency line.number }
{
    if sets.has(line) {
        None
    } else {
        sets.victim(line)
    }
}

/// A line of a cache, where it is modified or owned there.
fn if_dirty(sets: &Sets, line: Option<LineAddr>) -> Option<LineAddr>
    ensures { option_map (λ line. line.number) result
        ≡ if_dirty sets.now.residency (option_map (λ line. line.number) line) }
{
    match line {
        Some(line) if is_dirty(sets.letter(line)) => Some(line),
        Some(_) => None,
        None => None,
    }
}

/// Notes that an event has written this line back, if there is one and a request was served.
pub(crate) fn note_back(
    facts: &mut Vec<Fact>,
    place: u32,
    hart: HartId,
    back: Option<LineAddr>,
    outcome: Outcome,
) -> Result<(), NoMemory>
    ensures { OnOk result (facts.new.items ≡ facts.old.items
        ++ back_facts place hart (if_served outcome (option_map (λ line. line.number) back))) }
{
    match outcome {
        Outcome::Served { .. } => {
            if let Some(line) = back {
                let line = Some(line);
                let what = LineFact::WroteBack { hart };
                facts.push(Fact { place, line, what })?;
            }
        }
        _ => (),
    }
    Ok(())
}

/// Notes what an event has done to lines, by what its hart asked for before it.
pub(crate) fn note_lines(
    facts: &mut Vec<Fact>,
    machine: &Machine,
    place: u32,
    hart: HartId,
    asked: Option<Asking>,
    outcome: Outcome,
) -> Result<(), NoMemory>
    ensures { OnOk result (facts.new.items ≡ facts.old.items
        ++ facts_by place hart (option_map numbered_asking asked) (state_of machine.now) outcome) }
{
    match outcome {
        Outcome::Missed { line, need } => {
            let line = Some(line);
            let what = LineFact::Missed { hart, need };
            facts.push(Fact { place, line, what })?;
        }
        Outcome::Served { losers, .. } => {
            note_serve(facts, machine, place, hart, asked)?;
            note_losses(facts, machine, place, losers)?;
        }
        Outcome::Ordered { losers, .. } | Outcome::Delivered { losers } => {
            note_losses(facts, machine, place, losers)?;
        }
        _ => (),
    }
    Ok(())
}

/// Notes that a request was served.
fn note_serve(
    facts: &mut Vec<Fact>,
    machine: &Machine,
    place: u32,
    hart: HartId,
    asked: Option<Asking>,
) -> Result<(), NoMemory>
    ensures { OnOk result (facts.new.items ≡ facts.old.items
        ++ served_facts place hart (state_of machine.now) (option_map numbered_asking asked)) }
{
    if let Some(asked) = asked {
        let line = asked.request.line;
        let need = asked.request.need;
        let what = LineFact::Served { hart, need };
        facts.push(Fact {
            place,
            line: Some(line),
            what,
        })?;
        note_owner(facts, place, line, asked.owner, owner_of(machine, line))?;
    }
    Ok(())
}

/// Notes that a line changed its owner, if it did.
fn note_owner(
    facts: &mut Vec<Fact>,
    place: u32,
    line: LineAddr,
    from: Option<HartId>,
    to: Option<HartId>,
) -> Result<(), NoMemory>
    ensures { OnOk result (facts.new.items ≡ facts.old.items ++ owner_facts place line.number
        (option_map (λ hart. hart.number) from) (option_map (λ hart. hart.number) to)) }
{
    if !is_same(from, to) {
        let line = Some(line);
        let what = LineFact::Owner { from, to };
        facts.push(Fact { place, line, what })?;
    }
    Ok(())
}

/// Whether two owners are one.
fn is_same(a: Option<HartId>, b: Option<HartId>) -> bool
    ensures { result ≡ same_owner (option_map (λ hart. hart.number) a) (option_map (λ hart. hart.number) b) }
{
    match a {
        Some(a) => match b {
            Some(b) => a.number == b.number,
            None => false,
        },
        None => b.is_none(),
    }
}

/// Notes the losses of an event.
fn note_losses(
    facts: &mut Vec<Fact>,
    machine: &Machine,
    place: u32,
    losers: Losers,
) -> Result<(), NoMemory>
    ensures { OnOk result (facts.new.items ≡ facts.old.items
        ++ losses_below place (state_of machine.now) (beaten_by losers) 8) }
{
    for number in 0..MAX_HARTS {
        let loser = HartId { number };
        if let Some(winner) = losers.winner_of(loser) {
            let line = waited_for(machine, winner);
            let what = LineFact::Lost { winner, loser };
            facts.push(Fact { place, line, what })?;
        }
    }
    Ok(())
}
