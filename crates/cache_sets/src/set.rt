ghost use Rattle.std.specs.Prelude.{◌≡◌, ℕ, ◌≤◌, ◌<◌, ◌==◌, ◌∷◌, IfOk, map, length, option_map, position, slice_index_or, is_some, vec_capacity};
ghost use Rattle.std.specs.List.{remove};
ghost use Rattle.cache_sets.specs.declared.line.Line as code;
ghost use Rattle.residency.specs.Keyed.{changed, count_of, found, fronted, without};
ghost use Rattle.cache_sets.specs.Kept.{HasRoom, IsEmpty, IsVictimPlace, MakesRoom, cleared_way, committed_way, lettered_way, marked_way, number_of};
ghost use Rattle.cache_sets.specs.Kept.{shown_set, with_way};
ghost use Rattle.residency.specs.Residency.{evicted_in, has_unmarked, room_in, way_in};

use crate::line::Line;
use crate::way::Way;
use el_base::{LineAddr, Need, NoMemory};
use moesi::Letter;
use std::alloc::Global;

/// One set of a cache: its lines, most recent first. There is room for as many as it has ways.
#[derive(Drop)]
pub struct Set {
    pub lines: Vec<Line>,
}

impl Set {
    /// A set of so many ways without lines.
    pub fn empty(alloc: Global, ways: u8) -> Result<Set, NoMemory>
        ensures { IfOk result (IsEmpty ways) }
    {
        Ok(Set {
            lines: Vec::with_capacity(alloc, ways.into())?,
        })
    }

    /// The way of a line.
    pub fn find(&self, line: LineAddr) -> Option<Way>
        ensures { result ≡ option_map (λ l. l.way) (found number_of self.now.lines.items line.number) }
    {
        let place = self.place_of(line)?;
        Some(self.lines[place].way)
    }

    /// Where a line stands.
    pub fn place_of(&self, line: LineAddr) -> Option<usize>
        ensures { result ≡ position (λ l. number_of l == line.number) self.now.lines.items }
    {
        self.lines
            .iter()
            .position(|l| l.way.line.number == line.number)
    }

    /// Whether a line is there.
    pub fn has(&self, line: LineAddr) -> bool
        ensures { result ≡ is_some (way_in (shown_set self.now) line.number) }
    {
        self.place_of(line).is_some()
    }

    /// Whether some line has no bit.
    fn has_unmarked(&self) -> bool
        ensures { result ≡ has_unmarked (shown_set self.now) }
    {
        self.victim_place().is_some()
    }

    /// Whether there is room for a line: it is there, the set has fewer lines than ways, or some line
    /// has no bit.
    pub fn has_room_for(&self, ways: u8, line: LineAddr) -> bool
        ensures { result ≡ room_in ways (shown_set self.now) line.number }
    {
        self.has(line) || self.lines.len() < usize::from(ways) || self.has_unmarked()
    }

    /// A line becomes the most recent one.
    pub fn touch(&mut self, line: LineAddr)
        requires { count_of number_of self.old.lines.items line.number ≤ 1 }
        ensures lines { self.new.lines.items ≡ fronted number_of self.old.lines.items line.number }
        ensures room { HasRoom self.old self.new }
    {
        if let Some(place) = self.place_of(line) {
            to_front(self.lines.as_mut_slice(), place);
        }
    }

    /// A line gets another letter.
    pub fn set_letter(&mut self, line: LineAddr, letter: Letter)
        requires { count_of number_of self.old.lines.items line.number ≤ 1 }
        ensures lines { self.new.lines.items ≡ changed number_of (with_way (lettered_way letter)) self.old.lines.items line.number }
        ensures room { HasRoom self.old self.new }
    {
        if let Some(place) = self.place_of(line) {
            if let Some(found) = self.lines.get_mut(place) {
                found.way.letter = letter;
            }
        }
    }

    /// A line gets a bit.
    pub fn set_bit(&mut self, line: LineAddr, need: Need)
        requires { count_of number_of self.old.lines.items line.number ≤ 1 }
        ensures lines { self.new.lines.items ≡ changed number_of (with_way (marked_way need)) self.old.lines.items line.number }
        ensures room { HasRoom self.old self.new }
    {
        if let Some(place) = self.place_of(line) {
            if let Some(found) = self.lines.get_mut(place) {
                found.way.bits = found.way.bits.with(need);
            }
        }
    }

    /// A line leaves, and is handed out.
    pub fn remove(&mut self, line: LineAddr) -> Option<Line>
        requires { count_of number_of self.old.lines.items line.number ≤ 1 }
        ensures gone { result ≡ found number_of self.old.lines.items line.number }
        ensures left { self.new.lines.items ≡ without number_of self.old.lines.items line.number }
        ensures room { HasRoom self.old self.new }
    {
        let place = self.place_of(line)?;
        Some(self.lines.remove(place))
    }

    /// No line has a bit any more.
    pub fn clear_bits(&mut self)
        ensures lines { self.new.lines.items ≡ map (with_way cleared_way) self.old.lines.items }
        ensures room { HasRoom self.old self.new }
    {
        clear(self.lines.as_mut_slice());
    }

    /// The lines that are written become modified, and no line has a bit any more.
    pub fn commit_bits(&mut self)
        ensures lines { self.new.lines.items ≡ map (with_way committed_way) self.old.lines.items }
        ensures room { HasRoom self.old self.new }
    {
        commit(self.lines.as_mut_slice());
    }

    /// The line that leaves where another comes: where the set has as many lines as ways, the least recent one without
    /// bits.
    pub fn victim(&self, ways: u8) -> Option<LineAddr>
        ensures { option_map (λ gone. gone.number) result
            ≡ option_map (λ way. way.line) (evicted_in ways (shown_set self.now)) }
    {
        if self.lines.len() < usize::from(ways) {
            None
        } else {
            let place = self.victim_place()?;
            Some(self.lines[place].way.line)
        }
    }

    /// Where the least recent line without bits stands.
    fn victim_place(&self) -> Option<usize>
        ensures { IsVictimPlace self.now.lines.items result }
    {
        let mut place = self.lines.len();
        while place > 0 {
            place -= 1;
            if !self.lines[place].is_marked() {
                return Some(place);
            }
        }
        None
    }

    /// Makes room for a line that comes: where the set has as many lines as ways, the least recent line
    /// without bits leaves, and is handed out.
    pub fn make_room(&mut self, ways: u8) -> Option<Line>
        requires { (number : ℕ) → count_of number_of self.old.lines.items number ≤ 1 }
        ensures { MakesRoom ways self.old self.new result }
    {
        if self.lines.len() < usize::from(ways) {
            None
        } else {
            let place = self.victim_place()?;
            Some(self.lines.remove(place))
        }
    }

    /// A line comes as the most recent one.
    pub fn put_first(&mut self, line: Line)
        requires { length self.old.lines.items < vec_capacity self.old.lines }
        ensures lines { self.new.lines.items ≡ line ∷ self.old.lines.items }
        ensures room { HasRoom self.old self.new }
    {
        self.lines.push_reserved(line);
        self.lines.rotate_right(1);
    }
}

/// The line at a place becomes the most recent one.
fn to_front(lines: &mut [Line], place: usize)
    requires { place < length lines.old }
    ensures { (d : code.Line) → lines.new ≡ slice_index_or lines.old place d ∷ remove lines.old place }
{
    lines[..=place].rotate_right(1);
}

/// No line has a bit any more.
fn clear(lines: &mut [Line])
    ensures { lines.new ≡ map (with_way cleared_way) lines.old }
{
    for line in lines.iter_mut() {
        line.clear_bits();
    }
}

/// The lines that are written become modified, and none has a bit any more.
fn commit(lines: &mut [Line])
    ensures { lines.new ≡ map (with_way committed_way) lines.old }
{
    for line in lines.iter_mut() {
        line.commit_bits();
    }
}
