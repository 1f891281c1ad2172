ghost use Rattle.std.specs.Prelude.{◌≡◌, ◌+◌, ◌<◌, ◌≤◌, ◌∷◌, [], length, true, false};
ghost use Rattle.drive.specs.Turns.{HasEnded, IsRound, RoundStory, round_opening, turns_of};
ghost use Rattle.el_base.specs.declared.events.Event.{Event};
ghost use Rattle.el_model.specs.Next.{is_over};
ghost use Rattle.machine.specs.Story.{continued, left_of, state_of};

use crate::rounds::kind_at;
use el_base::{Chronicled, Entry, Event, HartId};
use machine::Machine;
use std::marker::Model;

/// What lies in the lock while drivers run: the machine, with how many turns of each hart were made.
///
/// A driver makes the turn that the count of its hart names. Contracts see where the machine started,
/// which is a number of its entries, the number of turns that were asked for, and the machine's story.
#[derive(Drop)]
pub struct Round {
    machine: Machine,
    base: u32,
    turns: u32,
    made: [u32; 8],
}

impl Model for Round {
    ghost use Rattle.drive.specs.Turns.{AreCounts, IsRound, RoundStory};

    ghost Value = { RoundStory };

    ghost view = { λ r. record { base = r.base; turns = r.turns; now = r.machine } };

    ghost invariant = { λ r.
        IsRound (record { base = r.base; turns = r.turns; now = r.machine })
        × AreCounts (record { base = r.base; turns = r.turns; now = r.machine }) r.made };
}

impl Round {
    /// A machine before the first turn of its drivers.
    pub(crate) fn begin(machine: Machine, turns: u32) -> Round
        ensures story { result ≡ record { base = length machine.entries; turns = turns; now = machine } }
        ensures round { IsRound result }
    {
        let base = machine.length();
        Round {
            machine,
            base,
            turns,
            made: [0; 8],
        }
    }

    /// Whether this hart's driver has no more turn to make: it has made all, or every hart has stopped, or
    /// no step is left.
    pub(crate) fn has_ended(&self, hart: HartId) -> bool
        ensures round { IsRound self.now }
        ensures ended { result ≡ true → HasEnded self.now hart.number }
        ensures turn_left { result ≡ false → turns_of self.now hart.number < self.now.turns }
        ensures runs { result ≡ false → is_over (state_of self.now.now) ≡ false }
        ensures step_left { result ≡ false → 1 ≤ left_of self.now.now }
    {
        if self.machine.over() {
            return true;
        }
        if self.machine.steps_left() == 0 {
            return true;
        }
        self.made[usize::from(hart.number)] >= self.turns
    }

    /// Makes the next turn of a hart.
    pub(crate) fn make_turn(&mut self, hart: HartId)
        requires hart_exists { hart.number < self.old.now.config.harts }
        requires turn_left { turns_of self.old hart.number < self.old.turns }
        requires runs { is_over (state_of self.old.now) ≡ false }
        requires step_left { 1 ≤ left_of self.old.now }
        ensures goes_on { (event : Event) × (event.hart ≡ hart) × (self.new ≡ record self.old { now = continued self.old.now (event ∷ []) }) }
        ensures made { turns_of self.new hart.number ≡ turns_of self.old hart.number + 1 }
        ensures round { IsRound self.new }
    {
        let made = self.made[usize::from(hart.number)];
        self.made[usize::from(hart.number)] = made + 1;
        self.machine.step(Event {
            kind: kind_at(made),
            hart,
        });
    }

    /// The machine, after its drivers.
    pub(crate) fn into_machine(self) -> Machine
        ensures story { result ≡ self.now }
        ensures round { IsRound self }
        ensures within { length result.entries ≤ result.config.steps }
    {
        let Round {
            machine,
            base: _,
            turns: _,
            made: _,
        } = self;
        prove!(machine.history().length() <= machine.config().steps);
        machine
    }
}

impl Chronicled for Round {
    ghost use Rattle.drive.specs.Turns.{round_opening};

    ghost opening = { λ round. round_opening round };

    ghost entries = { λ round. round.now.entries };

    fn length(&self) -> u32 {
        self.machine.length()
    }

    fn entry(&self, place: u32) -> Entry {
        self.machine.entry(place)
    }
}
