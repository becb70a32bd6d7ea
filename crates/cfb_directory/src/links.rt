//! Links of a directory, and what is to be done of a walk.

/// A link that is to be visited: the entry that it names, its file offset, and the depth and the storage of what it
/// names.
#[derive(Clone, Copy)]
pub struct Link {
    pub target: u32,
    pub place: u64,
    pub depth: u32,
    pub parent: u32,
}

/// An entry in a storage, each by its number.
#[derive(Clone, Copy)]
pub struct Member {
    pub parent: u32,
    pub id: u32,
}

/// What is to be done later: to visit what a link names, or to give an entry its place among its siblings.
#[derive(Clone, Copy)]
pub enum Pending {
    Visit(Link),
    Place(Member),
}

/// The entries that a walk visited.
#[derive(Drop)]
pub struct Walked {
    /// Each with its storage, in sibling order within each storage.
    pub order: Vec<Member>,
    /// Their numbers, in the order of the visits.
    pub visits: Vec<u32>,
}
