// What a recording is written from.
use recordings::ChannelEntry;

/// A note, the numbers of all rows, row after row, and the channels' entries.
#[derive(Clone, Copy)]
pub(crate) struct Contents<'a> {
    pub(crate) note: &'a [u8],
    pub(crate) rows: &'a [u32],
    pub(crate) entries: &'a [ChannelEntry],
}
