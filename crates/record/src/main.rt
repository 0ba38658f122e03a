// record: makes a recording from the desk's table on standard input.
#![tactic(auto)]

use anyhow::anyhow;
use programs::{Program, serve};
use records::Fault;
use sheets::{BadLine, NotRecorded, RecordError, Unrecorded, recorded_from};
use std::alloc::Global;
use std::io::{BufRead, BufReader, Write};
use std::process::ExitCode;

/// The report of a table that is not recorded.
// A bad line has the program's name before it, which `unfold` leaves to the prefix of its errors: the line of a refusal stands alone.
fn report(error: Unrecorded) -> anyhow::Error {
    match error {
        Unrecorded::Unread(e) => e.into(),
        Unrecorded::Unmade(NotRecorded::Line(BadLine { line, bad })) => {
            anyhow!("record: line {line}: {bad}")
        }
        Unrecorded::Unmade(NotRecorded::Unwritten(RecordError::NoMemory)) => {
            anyhow!("record: out of memory")
        }
        Unrecorded::Unmade(NotRecorded::Unwritten(RecordError::Refused(refusal))) => {
            anyhow!("{}", Fault::from(refusal))
        }
    }
}

/// Reads a table line by line, and writes its recording, or nothing if there is none.
fn record_table<B: BufRead + Drop, W: Write>(
    heap: Global,
    input: B,
    out: &mut W,
) -> anyhow::Result<()> {
    let bytes = recorded_from(heap, input).map_err(report)?;
    out.write_all(bytes.as_slice())?;
    out.flush()?;
    Ok(())
}

struct Record;

impl Program<HostRuntime> for Record {
    const NAME: &'static str = "record";

    // A refusal is told by its line alone.
    const PREFIX: &'static str = "";

    const USAGE: &'static str = "usage: record < TABLE > RECORDING
Reads a table of moduli, bounds and rows, and writes its recording.
What the writer refuses is told on standard error, as
  refused 43 channel 1 depth 0
and then, as with bad text, nothing is written and the status is 1.
";

    fn job(rt: &HostRuntime) -> anyhow::Result<()> {
        let input = BufReader::new(rt.alloc(), rt.stdin())?;
        record_table(rt.alloc(), input, &mut rt.stdout())
    }
}

fn main(rt: HostRuntime) -> ExitCode {
    serve::<Record, _>(&rt)
}

#[cfg(test)]
mod tests {
    use super::*;
    use std::io;
    use std::io::Read;
    use std::test::Fail;

    // What is reported of a table that is not recorded, and that nothing is written then.
    fn reported(heap: Global, table: &[u8]) -> Result<String, Fail> {
        let mut out: Vec<u8> = Vec::new(heap);
        let Err(e) = record_table(heap, table, &mut out) else {
            return Err(Fail::new("recorded"));
        };
        if !out.is_empty() {
            return Err(Fail::new("written"));
        }
        Ok(e.to_string(heap)?)
    }

    #[test]
    fn a_recording_is_written(rt: HostRuntime) -> Result<(), Fail> {
        let mut out = Vec::new(rt.alloc());
        record_table(
            rt.alloc(),
            b"moduli 30 40\nbounds 2 0\n19 -".as_slice(),
            &mut out,
        )?;
        assert_eq!(rt;
            out.as_slice(),
            b"\x13\x00\x00\x00\xff\xff\xff\xff\x1e\x00\x00\x00\x02\x00\x00\x00\x28\x00\x00\x00\x00\x00\x00\x00\x08\x00\x00\x00\x01\x00\x00\x00\x02\x00\x00\x00\x01\x00\x00\x00".as_slice()
        );
        Ok(())
    }

    // Gives a bad line, and then an error.
    #[derive(Drop)]
    struct Failing {
        given: bool,
    }

    impl Read for Failing {
        fn read(&mut self, buf: &mut [u8]) -> io::Result<usize> {
            if self.given {
                return Err(io::Error::from(io::ErrorKind::Other));
            }
            self.given = true;
            let text = b"x\n";
            let count = text.len().min(buf.len());
            buf[..count].copy_from_slice(&text[..count]);
            Ok(count)
        }
    }

    #[test]
    fn a_bad_line_is_told_before_the_next_is_read(rt: HostRuntime) -> Result<(), Fail> {
        let heap = rt.alloc();
        let input = BufReader::new(heap, Failing { given: false })?;
        let mut out: Vec<u8> = Vec::new(heap);
        let Err(e) = record_table(heap, input, &mut out) else {
            return Err(Fail::new("recorded"));
        };
        assert_eq!(rt;
            e.to_string(heap)?.as_str(),
            "record: line 1: no moduli line"
        );
        Ok(())
    }

    #[test]
    fn refusals_and_bad_text(rt: HostRuntime) -> Result<(), Fail> {
        let heap = rt.alloc();
        assert_eq!(rt;
            reported(heap, b"moduli 30 40\nbounds 2 10\n1 2\n")?.as_str(),
            "refused 43 channel 1 depth 0"
        );
        assert_eq!(rt;
            reported(heap, b"moduli\nbounds\n")?.as_str(),
            "refused 47 channel 0 depth 0"
        );
        assert_eq!(rt;
            reported(heap, b"# two\nmoduli 30 40\nbounds 2\n")?.as_str(),
            "record: line 3: 1 bounds for 2 moduli"
        );
        assert_eq!(rt;
            reported(heap, b"moduli 30 40\nbounds 2 2\n\n1 2 3\n")?.as_str(),
            "record: line 4: a row of 3 for 2 moduli"
        );
        assert_eq!(rt;
            reported(heap, b"moduli 30 40\n")?.as_str(),
            "record: line 2: no bounds line"
        );
        Ok(())
    }
}
