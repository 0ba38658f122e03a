// The fix record: what is kept of a fix.

/// A fix as a record: the start and the count of its bracket, and its mean.
#[derive(Clone, Copy, PartialEq, Eq, Debug)]
pub struct Fix {
    pub start: u64,
    pub count: u64,
    pub mean: u64,
}
