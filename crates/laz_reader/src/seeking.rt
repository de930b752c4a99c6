//! The chunks that meet a range of records.
ghost use Rattle.std.specs.Prelude.{◌≡◌, ◌+◌, ◌-◌, ◌^◌, ◌<◌, ◌≤◌, All, length, slice_index, sum, take};
ghost use Rattle.laz_reader.specs.Keeping.{IsSought};

/// The chunks that are read: from the one of number `first` on and before the one of number `last`, without `skip`
/// records at the front of the first and `tail` at the end of the last.
#[derive(Clone, Copy)]
pub(crate) struct Ends {
    pub(crate) first: u32,
    pub(crate) last: u32,
    pub(crate) skip: u32,
    pub(crate) tail: u32,
}

impl Ends {
    /// All of some chunks are read, whole.
    pub(crate) fn all(points: &[u32]) -> Ends
        requires few { length points.now < 2 ^ 32 }
        ensures { result ≡ record { first = 0; last = length points.now; skip = 0; tail = 0 } }
    {
        Ends {
            first: 0,
            last: points.len() as u32,
            skip: 0,
            tail: 0,
        }
    }
}

/// Which chunks are read, and where the first of them begins.
#[derive(Clone, Copy)]
pub(crate) struct Sought {
    pub(crate) ends: Ends,
    pub(crate) place: u64,
}

/// The chunks with records of the places from `start` on and before `stop`: none, if there are no such places. The
/// first chunk of all begins at `place`.
pub(crate) fn seek(points: &[u32], bytes: &[u32], place: u64, start: u32, stop: u32) -> Sought
    requires same { length points.now ≡ length bytes.now }
    requires few { length points.now < 2 ^ 32 }
    requires near { place + sum bytes.now < 2 ^ 64 }
    requires some { All (λ n. 0 < n) points.now }
    requires order { start ≤ stop }
    requires within { stop ≤ sum points.now }
    ensures { IsSought (record { start = start; stop = stop }) place points.now bytes.now result.ends result.place }
{
    if start == stop {
        let none = points.len() as u32;
        let ends = Ends {
            first: none,
            last: none,
            skip: 0,
            tail: 0,
        };
        return Sought { ends, place };
    }
    let (first, before, at) = first_chunk(points, bytes, place, start);
    let (last, reached) = last_chunk(points, first, before, stop);
    let ends = Ends {
        first,
        last,
        skip: (u64::from(start) - before) as u32,
        tail: (reached - u64::from(stop)) as u32,
    };
    Sought { ends, place: at }
}

// The number of the first chunk that ends after the record of place `start`, how many records are before it, and where
// it begins.
fn first_chunk(points: &[u32], bytes: &[u32], place: u64, start: u32) -> (u32, u64, u64)
    requires same { length points.now ≡ length bytes.now }
    requires few { length points.now < 2 ^ 32 }
    requires near { place + sum bytes.now < 2 ^ 64 }
    ensures within { result.0 ≤ length points.now }
    ensures before { result.1 ≡ sum (take result.0 points.now) }
    ensures early { result.1 ≤ start }
    ensures here { result.0 < length points.now → start < result.1 + slice_index points.now result.0 }
    ensures place { result.2 ≡ place + sum (take result.0 bytes.now) }
{
    let mut at = place;
    let mut before = 0;
    for i in 0..points.len() {
        let reached = before + u64::from(points[i]);
        if reached > u64::from(start) {
            return (i as u32, before, at);
        }
        before = reached;
        at += u64::from(bytes[i]);
    }
    (points.len() as u32, before, at)
}

// The number of the chunk after the one with the last record before place `stop`, and how many records are before it.
fn last_chunk(points: &[u32], first: u32, before: u64, stop: u32) -> (u32, u64)
    requires few { length points.now < 2 ^ 32 }
    requires within { first ≤ length points.now }
    requires before { before ≡ sum (take first points.now) }
    requires early { before < stop }
    requires stop { stop ≤ sum points.now }
    ensures order { first < result.0 }
    ensures within { result.0 ≤ length points.now }
    ensures reached { result.1 ≡ sum (take result.0 points.now) }
    ensures past { stop ≤ result.1 }
    ensures least { sum (take (result.0 - 1) points.now) < stop }
    ensures small { result.1 < stop + 2 ^ 32 }
{
    let mut reached = before;
    for i in first as usize..points.len() {
        if reached >= u64::from(stop) {
            return (i as u32, reached);
        }
        reached += u64::from(points[i]);
    }
    (points.len() as u32, reached)
}
