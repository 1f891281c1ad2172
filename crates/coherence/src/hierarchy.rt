//! Main memory and the caches of all harts.

ghost use Rattle.std.specs.Prelude.{◌≡◌, ◌<◌, ◌*◌, ◌%◌, ◌↔◌, ℕ, List, IfOk, IfSome, IsNone, true, length, replicate, slice_index};
ghost use Rattle.std.specs.Bool.{MatchBool};
ghost use Rattle.std.specs.Borrow.{sem};
ghost use Rattle.residency.specs.Cache.{is_resident};
ghost use Rattle.cache_sets.specs.Cached.{empty_cached};
ghost use Rattle.cache_sets.specs.Calls.{IsCleared};
ghost use Rattle.coherence.specs.Beginning.{bytes_at_first, lines_at_first};
ghost use Rattle.coherence.specs.Caches.{IsInMemory, behind_of};
ghost use Rattle.coherence.specs.Changed.{GetsBit, IsChangedAt};
ghost use Rattle.coherence.specs.Lent.{IsLentTo, LeavesHolds, Offers, slotted_at};
ghost use Rattle.coherence.specs.Served.{HasLine, IsCoherent, IsServed, Moves, TellsOf, caches_of, has_room, shown_copies};
ghost use Rattle.el_base.specs.Config.{IsInRange};
ghost use Rattle.el_base.specs.Line.{line_number};
ghost use Rattle.el_base.specs.declared.line.TheConstants.{LINE_BYTES};
ghost use Rattle.line_pool.specs.Pooled.{Pooled};

use crate::beginning::{empty_caches, lines_of};
use crate::changing;
use crate::fetching::fetch;
use crate::found::current;
use crate::keeping::keep;
use cache_sets::Sets;
use el_base::{Config, HartId, LINE_BYTES, LineAddr, Need, NoMemory, line_of};
use elf_image::Image;
use line_pool::Pool;
use moesi::Letter;
use std::alloc::Global;

/// Main memory, line by line from its first one on, and the cache of each hart. The bytes of the caches' lines lie in
/// slots of a pool, of which hart h's cache has those of owner h; a call that needs them is given the pool that lends
/// them (`IsLentTo` in `specs/Lent.antt`).
#[derive(Drop)]
pub struct Hierarchy {
    first: u32,
    lines: Vec<[u8; 64]>,
    caches: Vec<Sets>,
}

impl Hierarchy {
    ghost use Rattle.coherence.specs.Lending.{LendsCache};

    /// Main memory as the image has it, and for each of the image's harts a cache without lines. It
    /// takes all memory of both but that of the pool: any lends them that offers each hart sets times ways slots.
    pub fn make(alloc: Global, image: &Image, config: &Config) -> Result<Hierarchy, NoMemory>
        requires in_range { IsInRange config.now }
        requires one_hart_each { image.now.harts ≡ config.now.harts }
        ensures memory { IfOk result (λ hierarchy. (pool : Pooled) →
            TellsOf (shown_copies pool hierarchy) (bytes_at_first image.now)) }
        ensures lines { IfOk result (λ hierarchy. (pool : Pooled) →
            (shown_copies pool hierarchy).lines ≡ lines_at_first image.now) }
        ensures caches { IfOk result (λ hierarchy. (pool : Pooled) →
            (shown_copies pool hierarchy).caches ≡ replicate config.now.harts (empty_cached config.now.ways config.now.sets)) }
        ensures first { IfOk result (λ hierarchy. (pool : Pooled) →
            ((shown_copies pool hierarchy).first * LINE_BYTES ≡ image.now.base)
            × (length (shown_copies pool hierarchy).lines * LINE_BYTES ≡ length image.now.bytes)) }
        ensures lent { IfOk result (λ hierarchy. (pool : Pooled) →
            Offers pool config.now.harts (config.now.sets * config.now.ways) → IsLentTo pool (caches_of hierarchy)) }
    {
        let count = image.bytes().len() as u32 / LINE_BYTES;
        Ok(Hierarchy {
            first: image.base() / LINE_BYTES,
            lines: lines_of(alloc, image.bytes(), count)?,
            caches: empty_caches(alloc, config)?,
        })
    }

    /// How many harts there are.
    pub fn harts(&self) -> usize
        ensures { result ≡ length (caches_of self.now) }
    {
        self.caches.len()
    }

    /// The cache of a hart.
    pub fn cache(&self, hart: HartId) -> &Sets
        requires { hart.number < length (caches_of self.now) }
        ensures { result.now ≡ slotted_at (caches_of self.now) hart.number }
    {
        &self.caches[usize::from(hart.number)]
    }

    /// The cache of a hart, to be changed. What is left there is the hart's cache from then on; main memory
    /// and the other caches are as they were. Later calls need caches and main memory that tell one thing
    /// of each line: they do where each copy is as it was, or was one that may be written and is modified
    /// (`IsGivenBack` in `specs/GivenBack.antt`). They also need a pool that lends the caches, as it does where
    /// it lends this one and leaves those of the other harts (`proofs/Laws/Offered.antt`).
    #[tactic(auto, using(crate::proofs::Laws::Fetched::indexed))]
    pub fn cache_mut(&mut self, hart: HartId) -> &mut Sets
        requires { hart.number < length (caches_of self.old) }
        ensures* lends { sem 𝓛 (LendsCache self.entry hart.number result) }
        ensures value { result.now ≡ slotted_at (caches_of self.old) hart.number }
    {
        &mut self.caches[hart.number as usize]
    }

    /// The byte at an address that caches and main memory tell, or none outside memory.
    pub fn byte(&self, pool: &Pool, address: u32) -> Option<u8>
        requires lent { IsLentTo pool.now (caches_of self.now) }
        requires coherent { IsCoherent (shown_copies pool.now self.now) }
        ensures none_exactly_outside { IsNone result ↔ ¬ (HasLine (shown_copies pool.now self.now) (line_number address)) }
        ensures exact { (bytes : ℕ → List ℕ) → TellsOf (shown_copies pool.now self.now) bytes →
            IfSome result (λ byte. byte ≡ slice_index (bytes (line_number address)) (address % LINE_BYTES)) }
    {
        let line = line_of(address);
        if !self.has_in_memory(line) {
            return None;
        }
        let bytes = current(
            pool,
            self.first,
            self.lines.as_slice(),
            self.caches.as_slice(),
            line,
        );
        Some(bytes[(address % LINE_BYTES) as usize])
    }

    /// The byte at an address in main memory, whatever copies there are.
    pub fn main_byte(&self, address: u32) -> u8
        requires { IsInMemory self.now.first (length self.now.lines.items) (line_number address) }
        ensures { result ≡ slice_index
            (behind_of self.now.first self.now.lines.items (line_number address)) (address % LINE_BYTES) }
    {
        let line = self.lines[(line_of(address).number - self.first) as usize];
        line[(address % LINE_BYTES) as usize]
    }

    /// Whether a line lies in main memory.
    pub fn has_in_memory(&self, line: LineAddr) -> bool
        ensures { MatchBool result (IsInMemory self.now.first (length self.now.lines.items) line.number)
            (¬ (IsInMemory self.now.first (length self.now.lines.items) line.number)) }
    {
        self.first <= line.number && ((line.number - self.first) as usize) < self.lines.len()
    }

    /// A request of a hart is served: the other harts' copies go for a write, and change their letters
    /// for a read; the hart's own copy has the letter that its need gives, and is the most recent one
    /// of its set. A line that leaves the hart's cache for it is written back where main memory is
    /// behind it. The pool lends the caches then as before, and keeps what other owners have of it.
    pub fn serve(&mut self, pool: &mut Pool, hart: HartId, line: LineAddr, need: Need)
        requires hart_exists { hart.number < length (caches_of self.old) }
        requires lent { IsLentTo pool.old (caches_of self.old) }
        requires in_memory { HasLine (shown_copies pool.old self.old) line.number }
        requires room { has_room (shown_copies pool.old self.old) hart.number line.number ≡ true }
        requires coherent { IsCoherent (shown_copies pool.old self.old) }
        ensures served { IsServed need hart.number line.number (shown_copies pool.old self.old) (shown_copies pool.new self.new) }
        ensures coherent { IsCoherent (shown_copies pool.new self.new) }
        ensures lent { IsLentTo pool.new (caches_of self.new) }
        ensures holds { LeavesHolds pool.old pool.new }
    {
        self.bring(pool, hart, line, need);
        changing::touch(&mut self.caches, hart, line);
    }

    /// A line of a hart's cache gets the bit of a need: the hart's section has done that to it. No copy
    /// changes.
    pub fn mark(&mut self, hart: HartId, line: LineAddr, need: Need)
        requires hart_exists { hart.number < length (caches_of self.old) }
        requires resident { is_resident (slotted_at (caches_of self.old) hart.number).residency line.number ≡ true }
        ensures changed { (pool : Pooled) →
            IsChangedAt (GetsBit line.number need) hart.number (shown_copies pool self.old) (shown_copies pool self.new) }
        ensures lent { (pool : Pooled) → IsLentTo pool (caches_of self.old) → IsLentTo pool (caches_of self.new) }
    {
        changing::mark(&mut self.caches, hart, line, need);
    }

    /// No line of a hart's cache has a bit any more. No copy changes.
    pub fn clear(&mut self, hart: HartId)
        requires { hart.number < length (caches_of self.old) }
        ensures changed { (pool : Pooled) →
            IsChangedAt IsCleared hart.number (shown_copies pool self.old) (shown_copies pool self.new) }
        ensures lent { (pool : Pooled) → IsLentTo pool (caches_of self.old) → IsLentTo pool (caches_of self.new) }
    {
        changing::clear(&mut self.caches, hart);
    }

    /// The hart's copy and the others' are as after the request, but for the order of its lines.
    fn bring(&mut self, pool: &mut Pool, hart: HartId, line: LineAddr, need: Need)
        requires hart_exists { hart.number < length (caches_of self.old) }
        requires lent { IsLentTo pool.old (caches_of self.old) }
        requires in_memory { HasLine (shown_copies pool.old self.old) line.number }
        requires room { has_room (shown_copies pool.old self.old) hart.number line.number ≡ true }
        requires coherent { IsCoherent (shown_copies pool.old self.old) }
        ensures moved { Moves (λ cache. cache) need hart.number line.number
            (shown_copies pool.old self.old) (shown_copies pool.new self.new) }
        ensures lent { IsLentTo pool.new (caches_of self.new) }
        ensures holds { LeavesHolds pool.old pool.new }
    {
        if self.has(hart, line) {
            keep(pool, &mut self.caches, hart, line, need);
        } else {
            fetch(
                pool,
                self.first,
                &mut self.lines,
                &mut self.caches,
                hart,
                line,
                need,
            );
        }
    }

    /// Whether the cache of a hart has a line.
    fn has(&self, hart: HartId, line: LineAddr) -> bool
        requires { hart.number < length (caches_of self.now) }
        ensures { result ≡ is_resident (slotted_at (caches_of self.now) hart.number).residency line.number }
    {
        self.caches[usize::from(hart.number)].letter(line) != Letter::I
    }
}
