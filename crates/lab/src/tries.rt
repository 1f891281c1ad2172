ghost use Rattle.std.specs.Prelude.{◌≡◌, ◌≢◌, ◌<◌, ◌≤◌, length, ◌∷◌, ◌++◌, [], OnOk, map, slice_index};
ghost use Rattle.std.specs.Option.{option_map};
ghost use Rattle.el_base.specs.Losers.{beaten_by};
ghost use Rattle.el_model.specs.State.{section_of};
ghost use Rattle.el_base.specs.declared.outcomes.Outcome.TheVariants.{Began};
ghost use Rattle.lab.specs.declared.tries.Ended.TheVariants.{Live};
ghost use Rattle.lab.specs.Tries.{HasNone, ended_for, line_waited_for, lost_by, noted, of_section};
ghost use Rattle.machine.specs.Story.{IsOneRun, state_of};

use el_base::{Cause, Event, HartId, LineAddr, Losers, MAX_HARTS, MAX_STEPS, NoMemory, Outcome};
use machine::{Asked, Machine};
use std::alloc::Global;
use std::marker::Model;

/// An acquire: where it begins, which is the address of its swap, or of its LR where it is one by LR and SC; and the
/// address of its lock word.
#[derive(Clone, Copy, Debug, PartialEq, Eq)]
pub struct Acquire {
    pub pc: u32,
    pub word: u32,
}

/// How a section ended, with the place in the history of the event that ended it.
#[derive(Clone, Copy, Debug, PartialEq, Eq)]
pub enum Ended {
    /// It has not: it is live.
    Live,
    /// It took effect, with so many instructions, acquire and release among them. An acquire by LR and SC is all that ran
    /// from the LR to the SC.
    Committed {
        at: u32,
        count: u32,
    },
    /// It was lost to another hart, after so many instructions, its acquire among them. The line is the one that the
    /// winner waits for, `None` where it waits for none.
    LostTo {
        at: u32,
        ran: u32,
        winner: HartId,
        line: Option<LineAddr>,
    },
    /// Its own hart rolled it back, after so many instructions, its acquire among them.
    RolledBack {
        at: u32,
        ran: u32,
        cause: Cause,
    },
}

/// One section: who began it where, with what, and how it ended.
#[derive(Clone, Copy, Debug, PartialEq, Eq)]
pub struct Try {
    pub hart: HartId,
    pub acquire: Acquire,
    /// What the acquire found in the lock word.
    pub old: u32,
    /// What it would have stored there.
    pub new: u32,
    /// The place in the history of the event that began it: the step of its swap, or of its SC.
    pub first: u32,
    pub ended: Ended,
}

/// The sections of a run, in the order in which they began.
#[derive(Drop)]
pub struct Tries {
    list: Vec<Try>,
    /// At each hart the place in the list of its live section.
    live: [Option<usize>; MAX_HARTS as usize],
}

impl Model for Tries {
    ghost use Rattle.std.specs.Prelude.{List};
    ghost use Rattle.lab.specs.declared.tries.Try.{Try};
    ghost use Rattle.lab.specs.Tracked.{Tracks};

    ghost Value = { List Try };

    ghost view = { λ t. t.list.items };

    ghost invariant = { λ t. Tracks t.list.items t.live };
}

/// How many instructions each hart's live section has run, by the number of the hart; 0 where none is live.
pub(crate) type Counts = [u32; MAX_HARTS as usize];

impl Tries {
    /// No section.
    pub(crate) fn none(alloc: Global) -> Tries
        ensures { result ≡ [] }
    {
        Tries {
            list: Vec::new(alloc),
            live: [None; MAX_HARTS as usize],
        }
    }

    /// The sections, in the order in which they began.
    pub fn as_slice(&self) -> &[Try]
        ensures exact { result.now ≡ self.now }
        ensures few { length self.now ≤ MAX_STEPS }
    {
        &self.list
    }

    /// Notes an event that a machine has made, by what had run before it and what came of it. Nothing is said of the
    /// sections after `NoMemory`.
    pub(crate) fn note(
        &mut self,
        machine: &Machine,
        place: u32,
        ran: &Counts,
        event: Event,
        outcome: Outcome,
    ) -> Result<(), NoMemory>
        requires hart_exists { event.hart.number < machine.now.config.harts }
        requires one_run { IsOneRun machine.now }
        requires one_each { outcome ≡ Began → HasNone event.hart.number self.old }
        ensures { OnOk result (self.new ≡ noted (record {
          place = place;
          ran = slice_index ran.now;
          event = event;
          outcome = outcome;
          after = state_of machine.now;
        })
            self.old) }
    {
        match outcome {
            Outcome::Began => self.begin(machine, place, event.hart)?,
            Outcome::Committed { count } => {
                self.end(event.hart, Ended::Committed { at: place, count });
            }
            Outcome::RolledBack { cause } => {
                let ran = ran[usize::from(event.hart.number)];
                let at = place;
                self.end(event.hart, Ended::RolledBack { at, ran, cause });
            }
            Outcome::Ordered { losers, .. }
            | Outcome::Served { losers, .. }
            | Outcome::Delivered { losers } => {
                self.lose(machine, place, ran, losers);
            }
            Outcome::Idle
            | Outcome::Stalled
            | Outcome::Missed { .. }
            | Outcome::Ran
            | Outcome::Buffered
            | Outcome::Blocked { .. }
            | Outcome::Armed
            | Outcome::LetGo { .. } => (),
        }
        Ok(())
    }

    /// The live section of a hart, which an event at a place began, where the hart has one. None of it is noted.
    fn begin(&mut self, machine: &Machine, place: u32, hart: HartId) -> Result<(), NoMemory>
        requires hart_exists { hart.number < machine.now.config.harts }
        requires one_run { IsOneRun machine.now }
        requires none { HasNone hart.number self.old }
        ensures { OnOk result (self.new ≡ self.old ++ of_section (state_of machine.now) place hart
            (section_of (state_of machine.now) hart.number) Live) }
    {
        if let Some(live) = machine.section(hart) {
            let acquire = Acquire {
                pc: machine.hart(hart).pc,
                word: live.word,
            };
            self.push(Try {
                hart,
                acquire,
                old: live.old,
                new: live.new,
                first: place,
                ended: Ended::Live,
            })?;
        }
        Ok(())
    }

    /// Puts a live section behind all others, of a hart of which none is live. There is no place for more sections than
    /// a run has events.
    fn push(&mut self, begun: Try) -> Result<(), NoMemory>
        requires live { begun.ended ≡ Live }
        requires none { HasNone begun.hart.number self.old }
        ensures { OnOk result (self.new ≡ self.old ++ begun ∷ []) }
    {
        let place = self.list.len();
        if place >= MAX_STEPS as usize {
            return Err(NoMemory);
        }
        self.list.push(begun)?;
        self.live[usize::from(begun.hart.number)] = Some(place);
        Ok(())
    }

    /// The live section of a hart, where one is noted, ends.
    fn end(&mut self, hart: HartId, ended: Ended)
        requires { ended ≢ Live }
        ensures { self.new ≡ map (ended_for hart.number ended) self.old }
    {
        if let Some(place) = self.live[usize::from(hart.number)] {
            self.list[place].ended = ended;
            self.live[usize::from(hart.number)] = None;
        }
    }

    /// The live sections of the losers of an event end, each lost to its winner.
    fn lose(&mut self, machine: &Machine, place: u32, ran: &Counts, losers: Losers)
        ensures { self.new ≡ map (lost_by place (slice_index ran.now) (state_of machine.now) (beaten_by losers)) self.old }
    {
        for number in 0..MAX_HARTS {
            let loser = HartId { number };
            if let Some(winner) = losers.winner_of(loser) {
                let lost = Ended::LostTo {
                    at: place,
                    ran: ran[usize::from(number)],
                    winner,
                    line: waited_for(machine, winner),
                };
                self.end(loser, lost);
            }
        }
    }
}

/// The line that a hart waits for, or none where it waits for none or is not there.
pub(crate) fn waited_for(machine: &Machine, hart: HartId) -> Option<LineAddr>
    ensures { option_map (λ line. line.number) result ≡ line_waited_for (state_of machine.now) hart.number }
{
    if usize::from(hart.number) >= machine.bus().harts() {
        return None;
    }
    match machine.request(hart) {
        Asked::Nothing => None,
        Asked::Raised { request } => Some(request.line),
        Asked::Placed { request } => Some(request.line),
    }
}
