//! The bus, and its calls that are no event of it.

ghost use Rattle.std.specs.Prelude.{◌≡◌, ◌<◌, ◌≤◌, ◌*◌, ◌%◌, ◌↔◌, ℕ, List, IfOk, IfSome, IsNone, None, length, slice_index, true};
ghost use Rattle.std.specs.Borrow.{sem};
ghost use Rattle.bus_agent.specs.Agent.{agent_at};
ghost use Rattle.bus_order.specs.Order.{request_of};
ghost use Rattle.coherence.specs.Beginning.{bytes_at_first, lines_at_first};
ghost use Rattle.coherence.specs.Caches.{behind_of};
ghost use Rattle.coherence.specs.Lent.{Offers, slotted_at};
ghost use Rattle.el_base.specs.Config.{IsInRange};
ghost use Rattle.el_base.specs.Line.{line_number};
ghost use Rattle.el_base.specs.declared.line.TheConstants.{LINE_BYTES};
ghost use Rattle.el_model.specs.Attempts as attempts;
ghost use Rattle.el_model.specs.Plain.{missed_hart};
ghost use Rattle.el_model.specs.State.{ModelState, begin, cache_of, hart_of, ordered_of, raised_of, with_hart};
ghost use Rattle.line_pool.specs.Pooled.{Pooled};
ghost use Rattle.snoop.specs.Asking.{HasNoRequest, asking, numbered_asked};
ghost use Rattle.snoop.specs.Leaving.{LeavesCopies, LeavesNoted};
ghost use Rattle.snoop.specs.Shows.{IsReady, IsTold, LiesIn, Shows, Tells, has_room_in, bus_state};

use crate::asked::Asked;
use bus_agent::{Agent, close_attempt, give_up, new_agents, note_armed, open_attempt, raise};
use bus_order::{Order, Request};
use cache_sets::Sets;
use coherence::Hierarchy;
use el_base::{Config, HartId, LineAddr, Mode, Need, NoMemory};
use elf_image::Image;
use line_pool::Pool;
use std::alloc::Global;

/// Main memory, and of all harts the caches, the requests and their order, the mailboxes, and what lock removal
/// keeps of them.
#[derive(Drop)]
pub struct Bus {
    pub(crate) mode: Mode,
    pub(crate) hierarchy: Hierarchy,
    pub(crate) agents: Vec<Agent>,
    pub(crate) order: Order,
}

impl Bus {
    ghost use Rattle.snoop.specs.Lending.{LendsSets};

    /// The bus before the first event: main memory as the image has it, and for each of the image's harts a
    /// cache without lines and no request. It takes all memory of the bus but that of the pool: any lends the caches
    /// that offers each hart sets times ways slots.
    pub fn make(alloc: Global, image: &Image, config: &Config) -> Result<Bus, NoMemory>
        requires in_range { IsInRange config.now }
        requires one_hart_each { image.now.harts ≡ config.now.harts }
        ensures ready { IfOk result (λ bus. IsReady (bus_state bus)) }
        ensures shows { IfOk result (λ bus. Shows (bus_state bus) (begin image.now config.now)) }
        ensures memory { IfOk result (λ bus. (bus_state bus).copies.lines ≡ lines_at_first image.now) }
        ensures told { IfOk result (λ bus. (pool : Pooled) →
            Offers pool config.now.harts (config.now.sets * config.now.ways) →
            Tells pool (bus_state bus) (bytes_at_first image.now)) }
    {
        Ok(Bus {
            mode: config.mode,
            hierarchy: Hierarchy::make(alloc, image, config)?,
            agents: new_agents(alloc, config.harts)?,
            order: Order::new(),
        })
    }

    /// How many harts there are.
    pub fn harts(&self) -> usize
        ensures { result ≡ length (bus_state self.now).agents }
    {
        self.agents.len()
    }

    /// A hart's agent.
    pub fn agent(&self, hart: HartId) -> &Agent
        requires { hart.number < length (bus_state self.now).agents }
        ensures { result.now ≡ agent_at (bus_state self.now).agents hart.number }
    {
        &self.agents[usize::from(hart.number)]
    }

    /// The order of requests.
    pub fn requests(&self) -> &Order
        ensures { result.now ≡ (bus_state self.now).order }
    {
        &self.order
    }

    /// What a hart has asked: the request that it has raised, or else the one that it has in the order.
    pub fn request(&self, hart: HartId) -> Asked
        requires { hart.number < length (bus_state self.now).agents }
        ensures exact { numbered_asked result ≡ asking (agent_at (bus_state self.now).agents hart.number).raised
            (request_of (bus_state self.now).order hart.number) }
        ensures shown { (state : ModelState) → Shows (bus_state self.now) state →
            numbered_asked result ≡ asking (raised_of state hart.number) (ordered_of state hart.number) }
    {
        match (self.agent(hart).raised(), self.order.of(hart)) {
            (Some(request), _) => Asked::Raised { request },
            (None, Some(request)) => Asked::Placed { request },
            (None, None) => Asked::Nothing,
        }
    }

    /// A hart raises a request for a line, with the stamp of its open attempt, if one is open. The hart has no
    /// request and holds no line, the line lies in memory, and the hart's cache has room for it.
    pub fn raise(&mut self, hart: HartId, line: LineAddr, need: Need)
        requires hart_exists { hart.number < length (bus_state self.old).agents }
        requires ready { IsReady (bus_state self.old) }
        requires no_request { HasNoRequest (bus_state self.old) hart.number }
        requires holds_nothing { (agent_at (bus_state self.old).agents hart.number).held_line ≡ None }
        requires in_memory { LiesIn (bus_state self.old).copies line.number }
        requires room { has_room_in (bus_state self.old).copies hart.number line.number ≡ true }
        ensures { LeavesCopies (λ state. with_hart state hart.number
            (missed_hart hart.number line.number need (hart_of state hart.number))) (bus_state self.old) (bus_state self.new) }
    {
        let stamp = self.agent(hart).attempt();
        raise(
            &mut self.agents,
            Request {
                hart,
                line,
                need,
                stamp,
            },
        );
    }

    /// A hart holds no line any more, if it held one.
    pub fn give_up(&mut self, hart: HartId)
        requires hart_exists { hart.number < length (bus_state self.old).agents }
        requires ready { IsReady (bus_state self.old) }
        ensures { LeavesCopies (λ state. with_hart state hart.number
            (record (hart_of state hart.number) { held_line = None })) (bus_state self.old) (bus_state self.new) }
    {
        give_up(&mut self.agents, hart);
    }

    /// A hart is noted as armed, with the number of instructions that its armed section has run, 15 at most; 0 is noted
    /// of a hart that is not armed. Its cache stays as it is: a hart that arms is noted before its cache gets the
    /// section's bit; where its live section begins, 0 is noted, and the bit is that section's from then on; and where
    /// it is let go, its bit is cleared before 0 is noted.
    pub fn note_armed(&mut self, hart: HartId, count: u8)
        requires hart_exists { hart.number < length (bus_state self.old).agents }
        requires ready { IsReady (bus_state self.old) }
        requires few { count ≤ 15 }
        ensures { LeavesNoted hart.number count (bus_state self.old) (bus_state self.new) }
    {
        note_armed(&mut self.agents, hart, count);
    }

    /// In lock removal an attempt of a hart opens, with the hart's clock as its stamp, where none is open; in
    /// the other modes nothing changes. The hart has no request.
    pub fn open_attempt(&mut self, hart: HartId)
        requires hart_exists { hart.number < length (bus_state self.old).agents }
        requires ready { IsReady (bus_state self.old) }
        requires no_request { HasNoRequest (bus_state self.old) hart.number }
        ensures { LeavesCopies (λ state. with_hart state hart.number
            (attempts.open_attempt state.config.mode hart.number (hart_of state hart.number))) (bus_state self.old) (bus_state self.new) }
    {
        open_attempt(&mut self.agents, self.mode, hart);
    }

    /// The open attempt of a hart closes, where one is open, and the hart's clock becomes one more than the
    /// greater of itself and the clock that the hart has seen. The hart has no request.
    pub fn close_attempt(&mut self, hart: HartId)
        requires hart_exists { hart.number < length (bus_state self.old).agents }
        requires ready { IsReady (bus_state self.old) }
        requires no_request { HasNoRequest (bus_state self.old) hart.number }
        requires clock_below_the_last { (agent_at (bus_state self.old).agents hart.number).clock < u64.MAX }
        requires seen_below_the_last { (agent_at (bus_state self.old).agents hart.number).seen < u64.MAX }
        ensures { LeavesCopies (λ state. with_hart state hart.number
            (attempts.close_attempt (hart_of state hart.number))) (bus_state self.old) (bus_state self.new) }
    {
        close_attempt(&mut self.agents, hart);
    }

    /// The cache of a hart.
    pub fn sets(&self, hart: HartId) -> &Sets
        requires { hart.number < length (bus_state self.now).copies.caches }
        ensures exact { result.now ≡ slotted_at (bus_state self.now).copies.caches hart.number }
        ensures shown { (state : ModelState) → Shows (bus_state self.now) state →
            result.now.residency ≡ cache_of state hart.number }
    {
        self.hierarchy.cache(hart)
    }

    /// The cache of a hart, to be changed. What is left there is the hart's cache from then on; the rest of the bus
    /// is as it was. Later calls need a bus that is ready: what the caller owes for that is `IsReturned`, in
    /// `specs/Returned.antt`. Those with a pool need one that lends the caches (`Tells` in `specs/Shows.antt`).
    pub fn sets_mut(&mut self, hart: HartId) -> &mut Sets
        requires { hart.number < length (bus_state self.old).copies.caches }
        ensures* lends { sem 𝓛 (LendsSets self.entry hart.number result) }
        ensures value { result.now ≡ slotted_at (bus_state self.old).copies.caches hart.number }
    {
        self.hierarchy.cache_mut(hart)
    }

    /// The byte at an address of committed memory: that of the copy which main memory may be behind, and where
    /// there is none such, main memory's. `None` comes exactly outside memory.
    pub fn byte(&self, pool: &Pool, address: u32) -> Option<u8>
        requires ready { IsReady (bus_state self.now) }
        requires told { IsTold pool.now (bus_state self.now) }
        ensures none_exactly_outside { IsNone result ↔ ¬ (LiesIn (bus_state self.now).copies (line_number address)) }
        ensures committed { (bytes : ℕ → List ℕ) → Tells pool.now (bus_state self.now) bytes → IfSome result (λ byte.
            byte ≡ slice_index (bytes (line_number address)) (address % LINE_BYTES)) }
    {
        self.hierarchy.byte(pool, address)
    }

    /// The byte at an address of memory in main memory, whatever copies there are.
    pub fn main_byte(&self, address: u32) -> u8
        requires { LiesIn (bus_state self.now).copies (line_number address) }
        ensures { result ≡ slice_index
            (behind_of (bus_state self.now).copies.first (bus_state self.now).copies.lines (line_number address))
            (address % LINE_BYTES) }
    {
        self.hierarchy.main_byte(address)
    }
}
