// The memory that a line is handed with each call. It is full of garbage at first, which plays no part.
use line::reply::Reply;
use line::values::{Entry, Values};
use station::record::{Station, Status};
use std::alloc::{AllocError, Global};

// Room for one station more than a dozen, for more nodes than the 31 that these have, and for four sets in a trial.
const STATIONS: usize = 13;

const NODES: usize = 40;

const ENTRIES: usize = 4;

const STATION: Station = Station {
    label: [0xff; 24],
    status: Status::Down,
    up: u64::MAX,
    down: 77,
};

const ENTRY: Entry = Entry {
    place: 9999,
    values: Values {
        status: Status::Bypass,
        up: 5,
        down: u64::MAX,
    },
};

#[derive(Drop)]
pub(crate) struct Spaces<C> {
    pub list: Vec<Station>,
    pub nodes: Vec<C>,
    pub journal: Vec<Entry>,
    pub replies: Vec<Reply<C>>,
}

impl<C: Copy> Spaces<C> {
    // Spaces with a garbage cell in each node, and as many places for replies as there are requests.
    pub(crate) fn new(alloc: Global, cell: C, requests: usize) -> Result<Spaces<C>, AllocError> {
        Ok(Spaces {
            list: vec![in alloc; STATION; STATIONS]?,
            nodes: vec![in alloc; cell; NODES]?,
            journal: vec![in alloc; ENTRY; ENTRIES]?,
            replies: vec![in alloc; Reply::Done(7777); requests]?,
        })
    }
}
