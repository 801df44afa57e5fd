// Where the records of a store file start.

/// The start in use: where the records start, and whether it is the first of the two starts of the front.
#[derive(Clone, Copy, Debug)]
pub struct Start {
    pub place: u64,
    pub is_first: bool,
}
