// damage: writes a small recording, damages it byte by byte, and prints what the check says of each form.
//
// First come the bytes of the buffer, in base ten, with what the writer left behind the recording, and what the
// recording tells. Then each form on a line of its own: every front part of the recording, by its length, and the
// recording with one byte of its entries or of its last 16 changed, as
//   first 17: refused 46 channel 0 depth 0
//   byte 73 is 2: note 17 rows 2 channels 3 last 19 40 4294967294
// At the end stands what the writer says of notes, rows and entries that it refuses, and how much of its buffer is
// then as it was.
#![tactic(auto)]

use encoding::write;
use recordings::{ChannelEntry, Recording};
use records::Fault;
use std::ops::Range;
use std::{fmt, io};

/// Behind the recording the buffer holds this byte.
const FREE: u8 = 238;

/// Where the entries stand in the recording.
const ENTRIES: Range<usize> = 41..65;

/// Where its last 16 bytes stand.
const ENDING: Range<usize> = 65..81;

/// Bytes in base ten.
// Bytes and rows are printed here and not by the desk's crates: this program stands on the library alone.
#[derive(Clone, Copy)]
struct Bytes<'a>(&'a [u8]);

impl fmt::Display for Bytes<'_> {
    fn fmt<W: fmt::Write>(&self, f: &mut fmt::Formatter<W>) -> fmt::Result {
        f.write_str("bytes")?;
        for byte in self.0 {
            write!(f, " {byte}")?;
        }
        Ok(())
    }
}

/// The numbers of a row, each after a space.
#[derive(Clone, Copy)]
struct Row<'a> {
    recording: Recording<'a>,
    row: usize,
}

impl fmt::Display for Row<'_> {
    fn fmt<W: fmt::Write>(&self, f: &mut fmt::Formatter<W>) -> fmt::Result {
        // By number, and not over `row`: past the last row each channel tells none, and this prints it.
        let channels = 0..self.recording.channel_count();
        for number in channels.map(|channel| self.recording.number(self.row, channel)) {
            match number {
                Some(number) => write!(f, " {number}")?,
                None => f.write_str(" none")?,
            }
        }
        Ok(())
    }
}

/// What the check says of these bytes.
#[derive(Clone, Copy)]
struct Checked<'a>(&'a [u8]);

impl fmt::Display for Checked<'_> {
    fn fmt<W: fmt::Write>(&self, f: &mut fmt::Formatter<W>) -> fmt::Result {
        match Recording::check(self.0) {
            Ok(recording) => {
                let note = recording.note().len();
                let rows = recording.row_count();
                let channels = recording.channel_count();
                write!(f, "note {note} rows {rows} channels {channels}")?;
                if let Some(row) = rows.checked_sub(1) {
                    write!(f, " last{}", Row { recording, row })?;
                }
                Ok(())
            }
            Err(refusal) => write!(f, "{}", Fault::from(refusal)),
        }
    }
}

/// All that a recording tells.
fn tell_whole(rt: &HostRuntime, bytes: &[u8]) -> io::Result<()> {
    let Ok(recording) = Recording::check(bytes) else {
        return Ok(());
    };
    println!(rt; "note {}", Bytes(recording.note()))?;
    for (channel, ChannelEntry { modulus, bound }) in recording.entries().enumerate() {
        println!(rt; "channel {channel} modulus {modulus} bound {bound}")?;
    }
    // By number, which is printed, and one row more than there are.
    for row in 0..=recording.row_count() {
        println!(rt; "row {row}{}", Row { recording, row })?;
    }
    Ok(())
}

/// Every front part of the bytes.
fn cut_short(rt: &HostRuntime, bytes: &[u8]) -> io::Result<()> {
    // A plain count: it is printed, and a slice has no iterator over its front parts.
    for count in 0..bytes.len() {
        println!(rt; "first {count}: {}", Checked(&bytes[..count]))?;
    }
    Ok(())
}

/// The bytes with one of them changed to each of these values in turn; it is put back.
// By its place, which is printed.
fn change(rt: &HostRuntime, bytes: &mut [u8], place: usize, values: &[u8]) -> io::Result<()> {
    let Some(&kept) = bytes.get(place) else {
        return Ok(());
    };
    for &value in values {
        bytes[place] = value;
        println!(rt; "byte {place} is {value}: {}", Checked(bytes))?;
    }
    bytes[place] = kept;
    Ok(())
}

/// The bytes with each of those in these places changed.
fn change_each(
    rt: &HostRuntime,
    bytes: &mut [u8],
    places: Range<usize>,
    values: &[u8],
) -> io::Result<()> {
    for place in places {
        change(rt, bytes, place, values)?;
    }
    Ok(())
}

/// How many of the bytes are free.
fn count_free(bytes: &[u8]) -> usize {
    bytes.iter().filter(|&&byte| byte == FREE).count()
}

/// What the writer says when it has this room, and how many of its bytes are free then.
fn try_write(
    rt: &HostRuntime,
    room: &mut [u8],
    note: &[u8],
    rows: &[u32],
    entries: &[ChannelEntry],
) -> io::Result<()> {
    match write(room, note, rows, entries) {
        Ok(length) => print!(rt; "wrote {length}")?,
        Err(refusal) => print!(rt; "{}", Fault::from(refusal))?,
    }
    let free = count_free(room);
    println!(rt; ", {free} bytes free")
}

/// What the writer says of notes, rows and entries that it refuses, and of some that just fit.
fn try_writes(
    rt: &HostRuntime,
    note: &[u8],
    rows: &[u32],
    entries: &[ChannelEntry],
) -> io::Result<()> {
    let fit = ChannelEntry {
        modulus: 30,
        bound: 2,
    };
    let wide = ChannelEntry {
        modulus: 40,
        bound: 10,
    };
    try_write(rt, &mut [FREE; 84], note, rows, &[])?;
    try_write(rt, &mut [FREE; 84], note, rows, &[fit; 9])?;
    try_write(rt, &mut [FREE; 84], note, &[1, 2, 3, 4], entries)?;
    try_write(rt, &mut [FREE; 84], note, &[1, 2, 3, 4], &[fit, wide])?;
    try_write(rt, &mut [FREE; 80], note, rows, entries)?;
    try_write(rt, &mut [FREE; 81], note, rows, entries)?;
    try_write(rt, &mut [FREE; 84], note, &[], entries)?;
    try_write(rt, &mut [FREE; 84], b"", &[7], &[fit])
}

fn main(rt: HostRuntime) -> io::Result<()> {
    let entries = [
        ChannelEntry {
            modulus: 30,
            bound: 2,
        },
        ChannelEntry {
            modulus: 2147483648,
            bound: 3,
        },
        ChannelEntry {
            modulus: 50,
            bound: 12,
        },
    ];
    // Readings, a dark number and wild ones.
    let rows = [19, 36, 37, 19, 4294967295, 37, 30, 40, 4294967294];
    let note = b"lab 7";
    let mut room = [FREE; 84];
    let length = write(&mut room, note, &rows, &entries).unwrap_or(0);
    println!(rt; "{}", Bytes(&room))?;
    tell_whole(&rt, &room[..length])?;
    cut_short(&rt, &room[..length])?;
    let recording = &mut room[..length];
    change_each(&rt, recording, ENTRIES, &[0, 255])?;
    change_each(&rt, recording, ENDING, &[0, 1, 2, 3, 8, 9, 128, 255])?;
    try_writes(&rt, note, &rows, &entries)
}
