// Numbers and entries in bytes.
ghost use Rattle.std.specs.Prelude.{◌≡◌, ◌+◌, ◌*◌, ◌≤◌, length};
ghost use Rattle.recordings.specs.Contents.{entry_from};
ghost use Rattle.recordings.specs.Numbers.{number_from};

use crate::{ChannelEntry, ENTRY_BYTES, NUMBER_BYTES};

/// The number whose first byte, the least, stands at this place.
pub(crate) fn number_at(bytes: &[u8], place: usize) -> u32
    requires { place + NUMBER_BYTES ≤ length bytes.now }
    ensures { result ≡ number_from bytes.now place }
{
    let mut number = [0; NUMBER_BYTES];
    number.copy_from_slice(&bytes[place..place + NUMBER_BYTES]);
    u32::from_le_bytes(number)
}

/// The entry of a channel, where these are the bytes of all entries: modulus, then bound.
pub(crate) fn entry_at(entries: &[u8], channel: usize) -> ChannelEntry
    requires { ENTRY_BYTES * channel + ENTRY_BYTES ≤ length entries.now }
    ensures { result ≡ entry_from entries.now (ENTRY_BYTES * channel) }
{
    let place = ENTRY_BYTES * channel;
    let modulus = number_at(entries, place);
    let bound = number_at(entries, place + NUMBER_BYTES);
    ChannelEntry { modulus, bound }
}
