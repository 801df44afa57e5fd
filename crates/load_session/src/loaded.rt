// What a load tells.

/// What a load tells.
#[derive(Clone, Copy)]
pub struct Loaded {
    /// How many tools were started in each of the three asks, in their order.
    pub starts: [u64; 3],
    /// How many bytes the object of the last ask has, and 0 where it is no simple one.
    pub length: u64,
    /// How many calls are kept at the end.
    pub kept: u64,
}
