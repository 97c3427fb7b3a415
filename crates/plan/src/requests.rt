// The plan: what is asked of a line, from its first station on.
use line::request::Request;
use line::values::Values;
use semiring::Semiring;
use semiring::costs::Costs;
use station::record::Status;

fn add(label: &'static [u8], status: Status, up: u64, down: u64) -> Request<'static> {
    let values = Values { status, up, down };
    Request::Add { label, values }
}

fn set(place: usize, status: Status, up: u64, down: u64) -> Request<'static> {
    let values = Values { status, up, down };
    Request::Set { place, values }
}

// A dozen stations, whose codes are what it takes to run them and to put them out; then a trial that is taken back, and one that is kept,
// with requests among them that are refused. The code behind none is no cost: a line of costs refuses it, and a line of runs takes it, so
// that its journal is full sooner.
pub(crate) fn plan() -> [Request<'static>; 33] {
    let none = Costs.zero();
    let window = Request::Ask { first: 2, last: 11 };
    [
        add(b"Pump Lane", Status::Down, 3, 0),
        add(b"Alder Brook", Status::Down, 2, 35),
        add(b"Long Meadow", Status::Judged, 4, 42),
        add(b"Kiln Yard", Status::Judged, 1, 18),
        add(b"Toll House", Status::Up, 6, 9),
        add(b"Ferry Steps", Status::Judged, 2, 27),
        add(b"Glebe Farm", Status::Down, 5, 4),
        add(b"Signal Box", Status::Judged, 0, 61),
        add(b"", Status::Bypass, 7, 7),
        add(b"Heron Weir", Status::Judged, 3, 54),
        add(b"North Tower", Status::Judged, 8, none),
        add(b"Upper Reservoir, Hilltop", Status::Down, 2, 11),
        Request::Close,
        window,
        Request::Try,
        set(6, Status::Down, 2, 27),
        set(3, Status::Down, 4, 42),
        Request::Try,
        set(6, Status::Judged, 2, 12),
        set(8, Status::Judged, 0, none + 1),
        set(10, Status::Bypass, 3, 54),
        window,
        Request::Back,
        window,
        Request::Ring,
        Request::Ask { first: 9, last: 13 },
        Request::Keep,
        Request::Try,
        set(8, Status::Down, 0, 61),
        Request::Keep,
        Request::Back,
        window,
        add(b"Late Station", Status::Judged, 1, 1),
    ]
}
