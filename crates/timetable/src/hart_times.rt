//! What the events of a history come to for one hart, counted one event after another.
ghost use Rattle.std.specs.Prelude.{◌≡◌, ℕ, ◌+◌, ◌<◌, ◌≤◌, ◌^◌, []};
ghost use Rattle.el_base.specs.Winners.{winner_over};
ghost use Rattle.timetable.specs.Costs.{cost};
ghost use Rattle.timetable.specs.Counting.{Follows, IsWithin, after_loss, after_others, after_own, most_events};
ghost use Rattle.timetable.specs.Rows.{losses_at};
ghost use Rattle.timetable.specs.Table.{row_of};
ghost use Rattle.timetable.specs.Unsettled.{freed_by};

use el_base::{Entry, HartId, MAX_HARTS, Outcome};

/// The units that a hart is charged for each loss.
const LOSS_CHARGE: u64 = 10;

/// The losses of a hart to one winner.
#[derive(Clone, Copy)]
pub(crate) struct Losses {
    /// How many there were.
    pub(crate) times: u64,
    /// The instructions that were lost by them.
    pub(crate) instr: u64,
}

/// What a history says of one hart.
#[derive(Clone, Copy)]
pub(crate) struct HartTimes {
    /// The units of the hart's events, and the charges for its losses.
    pub(crate) units: u64,
    /// The instructions that ran in a section, or since an `LR.W`, of which it is not settled yet whether
    /// they take effect.
    pub(crate) unsettled: u64,
    /// The instructions that were lost, whoever won.
    pub(crate) lost: u64,
    /// The losses to each hart, by its number.
    pub(crate) to: [Losses; MAX_HARTS as usize],
}

impl HartTimes {
    /// What a history of no events says of any hart.
    #[tactic(auto, unfolding(crate::specs::Table::row_of, crate::specs::Unsettled::unsettled))]
    pub(crate) fn nothing() -> HartTimes
        ensures { (h : ℕ) → result ≡ row_of h [] }
    {
        let none = Losses { times: 0, instr: 0 };
        HartTimes {
            units: 0,
            unsettled: 0,
            lost: 0,
            to: [none; MAX_HARTS as usize],
        }
    }

    /// Counts an event for the hart of this number, whoever's event it is.
    pub(crate) fn count(&mut self, hart: HartId, entry: Entry)
        requires { IsWithin most_events self.old }
        ensures { Follows hart.number entry self.old self.new }
    {
        if entry.event.hart == hart {
            self.count_own(entry.outcome);
        }
        self.count_others(hart, entry.outcome);
    }

    /// Counts an event of the hart's own.
    fn count_own(&mut self, outcome: Outcome)
        requires units { self.old.units + 20 < 2 ^ 64 }
        requires unsettled { self.old.unsettled + 1 < 2 ^ 64 }
        ensures { self.new ≡ after_own self.old outcome }
    {
        self.units += cost(outcome);
        match outcome {
            Outcome::Armed | Outcome::Began | Outcome::Buffered => self.unsettled += 1,
            Outcome::Committed { .. } | Outcome::RolledBack { .. } | Outcome::LetGo { .. } => {
                self.unsettled = 0;
            }
            _ => (),
        }
    }

    /// Counts what an event does to the hart without being its own: that it lost, or was let go.
    fn count_others(&mut self, hart: HartId, outcome: Outcome)
        requires units { self.old.units + 10 < 2 ^ 64 }
        requires lost { self.old.lost + self.old.unsettled < 2 ^ 64 }
        requires times { (w : ℕ) → w < 8 → (losses_at self.old w).times + 1 < 2 ^ 64 }
        requires instr { (w : ℕ) → w < 8 → (losses_at self.old w).instr + self.old.unsettled < 2 ^ 64 }
        ensures { self.new ≡
            after_others self.old (winner_over outcome hart.number) (freed_by outcome hart.number) }
    {
        if let Some(winner) = outcome.losers().winner_of(hart) {
            self.count_loss(winner);
        } else if outcome.freed().count_of(hart) > 0 {
            self.unsettled = 0;
        }
    }

    /// Counts a loss to a winner.
    fn count_loss(&mut self, winner: HartId)
        requires units { self.old.units + 10 < 2 ^ 64 }
        requires lost { self.old.lost + self.old.unsettled < 2 ^ 64 }
        requires times { (losses_at self.old winner.number).times + 1 < 2 ^ 64 }
        requires instr { (losses_at self.old winner.number).instr + self.old.unsettled < 2 ^ 64 }
        ensures { self.new ≡ after_loss self.old winner.number }
    {
        let losses = &mut self.to[winner.number as usize];
        losses.times += 1;
        losses.instr += self.unsettled;
        self.lost += self.unsettled;
        self.unsettled = 0;
        self.units += LOSS_CHARGE;
    }
}

/// The units of an event for its own hart, by its outcome.
fn cost(outcome: Outcome) -> u64
    ensures exact { result ≡ cost outcome }
    ensures small { result ≤ 20 }
{
    match outcome {
        Outcome::Idle | Outcome::LetGo { .. } => 0,
        Outcome::Stalled
        | Outcome::Missed { .. }
        | Outcome::Ran
        | Outcome::Began
        | Outcome::Buffered
        | Outcome::Committed { .. }
        | Outcome::Armed
        | Outcome::Blocked { .. }
        | Outcome::Delivered { .. } => 1,
        Outcome::Ordered { .. } => 4,
        Outcome::RolledBack { .. } => 10,
        Outcome::Served { .. } => 20,
    }
}
