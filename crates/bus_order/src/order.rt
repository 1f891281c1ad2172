ghost use Rattle.std.specs.Prelude.{◌≡◌, ◌==◌, None, [], find, map, reverse, position};
ghost use Rattle.std.specs.Option.{option_map};

use crate::request::Request;
use arrayvec::ArrayVec;
use el_base::{HartId, LineAddr};
use std::marker::Model;

/// How many requests an order has places for: one for each hart.
const PLACES: usize = 8;

/// The requests that were ordered and are not served yet, first to last: at most one of each hart.
#[derive(Debug, Drop)]
pub struct Order {
    requests: ArrayVec<Request, PLACES>,
    /// The request of each hart, by its number, so that a hart's is found without a search.
    of_harts: [Option<Request>; PLACES],
}

impl Model for Order {
    ghost use Rattle.std.specs.Prelude.{List, map};
    ghost use Rattle.bus_order.specs.Kept.{KeepsEach};
    ghost use Rattle.bus_order.specs.Order as definition;

    ghost Value = { List definition.Request };

    ghost view = { λ order. map definition.numbered order.requests.items };

    ghost invariant = { λ order.
        definition.IsOneEach (map definition.numbered order.requests.items)
        × KeepsEach (map definition.numbered order.requests.items) order.of_harts };
}

impl Order {
    ghost use Rattle.bus_order.specs.Order as definition;

    /// The order without any request.
    pub fn new() -> Order
        ensures { result ≡ [] }
    {
        Order {
            requests: ArrayVec::new(),
            of_harts: [None; PLACES],
        }
    }

    /// Puts a request behind all others. Its hart has none in the order.
    pub fn append(&mut self, request: Request)
        requires { definition.request_of self.old request.hart.number ≡ None }
        ensures { self.new ≡ definition.appended self.old (definition.numbered request) }
    {
        self.requests.push(request);
        self.of_harts[usize::from(request.hart.number)] = Some(request);
    }

    /// Puts a request before the first of its line, or behind all others where its line has none. Its
    /// hart has none in the order.
    pub fn in_front(&mut self, request: Request)
        requires { definition.request_of self.old request.hart.number ≡ None }
        ensures { self.new ≡ definition.in_front_of self.old (definition.numbered request) }
    {
        let behind_all = self.requests.len();
        let place = place_of_line(&self.requests, request.line).unwrap_or(behind_all);
        self.requests.insert(place, request);
        self.of_harts[usize::from(request.hart.number)] = Some(request);
    }

    /// The first request of a line, or `None` where the line has none.
    pub fn first_of(&self, line: LineAddr) -> Option<Request>
        ensures { option_map definition.numbered result ≡ definition.first_of self.now line.number }
    {
        first_in_line(&self.requests, line)
    }

    /// The last request of a line, or `None` where the line has none.
    pub fn tail_of(&self, line: LineAddr) -> Option<Request>
        ensures { option_map definition.numbered result ≡ definition.tail_of self.now line.number }
    {
        last_in_line(&self.requests, line)
    }

    /// A hart's request, or `None` where it has none in the order.
    #[inline(always)]
    pub fn of(&self, hart: HartId) -> Option<Request>
        ensures { option_map definition.numbered result ≡ definition.request_of self.now hart.number }
    {
        self.of_harts[usize::from(hart.number)]
    }

    /// All requests, first to last.
    pub fn as_slice(&self) -> &[Request]
        ensures { map definition.numbered result.now ≡ self.now }
    {
        &self.requests
    }

    /// Takes a hart's request out of the order, if it has one there.
    pub fn remove(&mut self, hart: HartId)
        ensures { self.new ≡ definition.removed self.old hart.number }
    {
        if let Some(place) = place_of_hart(&self.requests, hart) {
            self.requests.remove(place);
            self.of_harts[usize::from(hart.number)] = None;
        }
    }
}

fn first_in_line(requests: &[Request], line: LineAddr) -> Option<Request>
    ensures { result ≡ find (λ request. request.line.number == line.number) requests.now }
{
    requests
        .iter()
        .copied()
        .find(|request| request.line.number == line.number)
}

fn last_in_line(requests: &[Request], line: LineAddr) -> Option<Request>
    ensures { result ≡ find (λ request. request.line.number == line.number) (reverse requests.now) }
{
    requests
        .iter()
        .rev()
        .copied()
        .find(|request| request.line.number == line.number)
}

fn place_of_line(requests: &[Request], line: LineAddr) -> Option<usize>
    ensures { result ≡ position (λ request. request.line.number == line.number) requests.now }
{
    requests
        .iter()
        .position(|request| request.line.number == line.number)
}

fn place_of_hart(requests: &[Request], hart: HartId) -> Option<usize>
    ensures { result ≡ position (λ request. request.hart.number == hart.number) requests.now }
{
    requests
        .iter()
        .position(|request| request.hart.number == hart.number)
}
