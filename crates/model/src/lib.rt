// What a board is: definitions alone, see specs/; and the structs that hold its track, and what is said of it, in code.
#![tactic(auto)]

// Points P, the home point, zones Z.
#[derive(Clone, Copy)]
pub struct Head {
    pub points: usize,
    pub home: usize,
    pub zones: usize,
}

// The track of a board: its numbers, and the two ends of each zone, end A of zone 0 first.
#[derive(Clone, Copy)]
pub struct Track<'a> {
    pub head: Head,
    pub ends: &'a [usize],
}

// What is said of a board beside its key: points P, zones Z, carriers out C.
#[derive(Clone, Copy)]
pub struct Summary {
    pub points: usize,
    pub zones: usize,
    pub out: usize,
}
