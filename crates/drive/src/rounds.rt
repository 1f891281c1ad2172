ghost use Rattle.std.specs.Prelude.{◌≡◌, ℕ, ◌+◌, ◌*◌, ◌<◌, ◌≤◌, ◌%◌, ◌∷◌, [], false, take, true};
ghost use Rattle.drive.specs.Drivers.{GoesRound, MakesRoundRobin};
ghost use Rattle.drive.specs.Turns.{IsAtItsEnd};
ghost use Rattle.el_base.specs.Kinds.{kind_number};
ghost use Rattle.el_model.specs.Next.{is_over};
ghost use Rattle.machine.specs.Resting.{bus_events, turn_events};
ghost use Rattle.machine.specs.Story.{Story, continued, left_of, state_of};

use el_base::{Event, HartId, Kind};
use machine::Machine;

/// Makes events until every hart has stopped or no step is left: the harts in ascending order, each
/// with an event of each kind, over and over.
pub fn round_robin(machine: &mut Machine)
    ensures { MakesRoundRobin machine.old machine.new }
{
    let harts = machine.config().harts;
    let steps = machine.steps_left();
    go_round(machine, harts, steps);
}

/// Makes the events of a round robin of so many harts, and of so many steps at most, by turns of harts.
#[tactic(auto, using(crate::proofs::GoingRound::none_made))]
fn go_round(machine: &mut Machine, harts: u8, steps: u32)
    requires some { 1 ≤ harts }
    requires few { harts ≤ 8 }
    requires harts_are { harts ≡ machine.old.config.harts }
    requires steps_are { steps ≡ left_of machine.old }
    ensures { MakesRoundRobin machine.old machine.new }
{
    let mut hart = HartId { number: 0 };
    for _ in 0..steps {
        if !make_turn(machine, hart) {
            break;
        }
        hart = next_hart(harts, hart);
    }
}

/// Makes a hart's turn, an event of each kind, and says whether the round robin goes on behind it: not where every hart
/// has stopped, or no step is left, before an event of the turn.
#[inline(always)]
fn make_turn(machine: &mut Machine, hart: HartId) -> bool
    requires hart_exists { hart.number < machine.old.config.harts }
    ensures goes_on { (before : Story) (turns : ℕ) → GoesRound before machine.old (4 * turns) →
        hart.number ≡ turns % before.config.harts → result ≡ true → GoesRound before machine.new (4 * turns + 4) }
    ensures ended { (before : Story) (turns : ℕ) → GoesRound before machine.old (4 * turns) →
        hart.number ≡ turns % before.config.harts → result ≡ false → MakesRoundRobin before machine.new }
{
    if wait(machine, hart) {
        return true;
    }
    if !make(machine, Kind::Step, hart) {
        return false;
    }
    if rest(machine, hart) {
        return true;
    }
    make_on_bus(machine, hart)
}

/// Makes a hart's turn at once, where the hart waits in all of it and a step is left for each of its events. It answers
/// whether it made it.
#[inline(always)]
fn wait(machine: &mut Machine, hart: HartId) -> bool
    requires hart_exists { hart.number < machine.old.config.harts }
    ensures runs { result ≡ true → is_over (state_of machine.old) ≡ false }
    ensures steps_left { result ≡ true → 4 ≤ left_of machine.old }
    ensures goes_on { result ≡ true → machine.new ≡ continued machine.old (turn_events hart) }
    ensures throughout { result ≡ true → (made : ℕ) →
        state_of (continued machine.old (take made (turn_events hart))) ≡ state_of machine.old }
    ensures left { result ≡ false → machine.new ≡ machine.old }
{
    if machine.steps_left() < 4 {
        return false;
    }
    machine.wait(hart)
}

/// Makes the events of the bus in a hart's turn at once, where some hart runs, a step is left for each of them, and they
/// find nothing to do. It answers whether it made them.
#[inline(always)]
fn rest(machine: &mut Machine, hart: HartId) -> bool
    requires hart_exists { hart.number < machine.old.config.harts }
    ensures runs { result ≡ true → is_over (state_of machine.old) ≡ false }
    ensures steps_left { result ≡ true → 3 ≤ left_of machine.old }
    ensures goes_on { result ≡ true → machine.new ≡ continued machine.old (bus_events hart) }
    ensures throughout { result ≡ true → (made : ℕ) →
        state_of (continued machine.old (take made (bus_events hart))) ≡ state_of machine.old }
    ensures left { result ≡ false → machine.new ≡ machine.old }
{
    if machine.over() || machine.steps_left() < 3 {
        return false;
    }
    machine.rest(hart)
}

/// Makes the events of the bus in a hart's turn, one by one, as far as the round robin goes on.
fn make_on_bus(machine: &mut Machine, hart: HartId) -> bool
    requires hart_exists { hart.number < machine.old.config.harts }
    ensures goes_on { (before : Story) (turns : ℕ) → GoesRound before machine.old (4 * turns + 1) →
        hart.number ≡ turns % before.config.harts → result ≡ true → GoesRound before machine.new (4 * turns + 4) }
    ensures ended { (before : Story) (turns : ℕ) → GoesRound before machine.old (4 * turns + 1) →
        hart.number ≡ turns % before.config.harts → result ≡ false → MakesRoundRobin before machine.new }
{
    if !make(machine, Kind::Order, hart) {
        return false;
    }
    if !make(machine, Kind::Serve, hart) {
        return false;
    }
    make(machine, Kind::Deliver, hart)
}

/// Makes an event, unless every hart has stopped or no step is left. It answers whether it made it.
#[inline(always)]
fn make(machine: &mut Machine, kind: Kind, hart: HartId) -> bool
    requires hart_exists { hart.number < machine.old.config.harts }
    ensures runs { result ≡ true → is_over (state_of machine.old) ≡ false }
    ensures step_left { result ≡ true → 1 ≤ left_of machine.old }
    ensures goes_on { result ≡ true →
        machine.new ≡ continued machine.old (record { kind = kind; hart = hart } ∷ []) }
    ensures ended { result ≡ false → IsAtItsEnd machine.old }
    ensures left { result ≡ false → machine.new ≡ machine.old }
{
    if machine.over() {
        return false;
    }
    if machine.steps_left() == 0 {
        return false;
    }
    machine.step(Event { kind, hart });
    true
}

/// The hart after this one of so many, and the first one after the last.
#[tactic(auto, using(crate::proofs::NextHart::next_of_harts, crate::proofs::NextHart::first_of_harts))]
fn next_hart(harts: u8, hart: HartId) -> HartId
    requires some { 1 ≤ harts }
    requires few { harts ≤ 8 }
    ensures { (turns : ℕ) → hart.number ≡ turns % harts → result.number ≡ (turns + 1) % harts }
{
    let number = hart.number + 1;
    if number < harts {
        HartId { number }
    } else {
        HartId { number: 0 }
    }
}

/// The kind at a place: each hart's turn has one event of each kind.
pub(crate) fn kind_at(place: u32) -> Kind
    ensures { kind_number result ≡ place % 4 }
{
    Kind::with_number((place % 4) as u8).unwrap()
}
