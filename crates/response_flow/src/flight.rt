// A response in flight.
ghost use Rattle.std.specs.Prelude.{◌≡◌};
ghost use Rattle.response_flow.specs.Flights.{flight_length, flight_server};

use access_flow::AccessFlow;
use page_response::Pages;
use request_flow::{Flow, length_of as flow_length, server_of as flow_server};

/// A page of parts on its way; and the number of the server that answers, and the length in bytes
/// that the head states of the request's own body: what it is served over is found by them again.
#[derive(Drop)]
pub struct PageFlow {
    pub pages: Box<Pages>,
    pub server: u32,
    pub length: u64,
}

/// A response in flight.
#[derive(Drop)]
pub enum Flight {
    /// Its request has no subrequest now.
    Alone(Box<Flow>),
    /// Its request asks a subrequest whether it is let in.
    Asking(Box<AccessFlow>),
    /// Filters make its body of parts.
    Page(PageFlow),
}

/// What became of a request that went on: how it goes on, if it isn't over; whether the connection
/// closes after it; its status and the length of its body in bytes once it is over; the number
/// of the level that answers where its head was put now; and once a page is over, how many of the
/// bytes that are kept are the tail of a body in chunks, else 0.
#[derive(Drop)]
pub struct Onward {
    pub flight: Option<Flight>,
    pub closing: bool,
    pub log: Option<(u16, u64)>,
    pub level: Option<u32>,
    pub tail: usize,
}

/// What became of a request that ran.
#[derive(Drop)]
pub enum Ran {
    On(Onward),
    /// It asks for one subrequest more than the thousand that are opened for one response.
    TooMany,
}

/// What became of a request that ran in its place, where it is kept how it goes on: whether the connection closes after
/// it, what is logged, the number of the level that answers, and how many of the bytes that are kept are the tail of a body
/// in chunks.
#[derive(Drop)]
pub enum Passed {
    On {
        closing: bool,
        log: Option<(u16, u64)>,
        level: Option<u32>,
        tail: usize,
    },
    /// It asks for one subrequest more than the thousand that are opened for one response.
    TooMany,
}

/// The number of the server that answers a request within its phases, or a page; 0 else, where it
/// doesn't matter.
pub fn server_of(flight: &Flight) -> u32
    ensures { result ≡ flight_server flight.now }
{
    match flight {
        Flight::Alone(flow) => flow_server(&flow.stage),
        Flight::Asking(flow) => flow.request.server,
        Flight::Page(page) => page.server,
    }
}

/// The length in bytes that the head of a request within its phases, or of a page, states of its
/// own body; 0 else, where it doesn't matter.
pub fn length_of(flight: &Flight) -> u64
    ensures { result ≡ flight_length flight.now }
{
    match flight {
        Flight::Alone(flow) => flow_length(&flow.stage),
        Flight::Asking(flow) => flow.request.length,
        Flight::Page(page) => page.length,
    }
}
