// The recording itself: parts of the caller's bytes.

/// A recording that passed its check. It borrows the bytes, copies none of
/// them and never changes.
#[derive(Clone, Copy)]
pub struct Recording<'a> {
    pub(crate) note: &'a [u8],
    pub(crate) rows: &'a [u8],
    pub(crate) entries: &'a [u8],
}
