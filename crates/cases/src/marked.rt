// Stations told by marks: d for one that is down, and u for one that may be up.
use station::record::{Station, Status};
use std::alloc::{AllocError, Global};

pub(crate) fn station(down: bool) -> Station {
    Station {
        label: [0; 24],
        status: if down { Status::Down } else { Status::Judged },
        up: 2,
        down: if down { 1 } else { 3 },
    }
}

pub(crate) fn marked(alloc: Global, marks: &[u8]) -> Result<Vec<Station>, AllocError> {
    let mut stations = Vec::new(alloc);
    for mark in marks {
        stations.push(station(*mark == b'd'))?;
    }
    Ok(stations)
}
