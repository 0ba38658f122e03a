// unfold: reads a table on standard input and prints, for each row, what it unfolds to or why it is refused.
#![tactic(auto)]

use anyhow::anyhow;
use programs::{Program, serve};
use records::Fault;
use std::alloc::Global;
use std::io::{BufRead, BufReader, BufWriter, Write};
use std::process::ExitCode;
use tables::{BadText, Desk, Reply, row_line};

/// The report of a line with bad text.
fn at_line(number: u64, bad: BadText) -> anyhow::Error {
    anyhow!("line {number}: {bad}")
}

/// Reads a table line by line, and writes a line for each row, or for a refused setting alone.
fn read_table<B: BufRead + Drop, W: Write>(
    heap: Global,
    input: B,
    out: &mut W,
) -> anyhow::Result<()> {
    let mut desk = Desk::new(heap);
    // Counted by hand, as the number of the line after the last is told, too.
    let mut number: u64 = 1;
    for line in input.split(heap, b'\n') {
        let reply = desk
            .line(line?.as_slice())
            .map_err(|bad| at_line(number, bad))?;
        match reply {
            Reply::Nothing => {}
            Reply::Row(row) => writeln!(out, "{}", row_line(heap, row)?)?,
            Reply::Refused(refusal) => {
                writeln!(out, "{}", Fault::from(refusal))?;
                return Ok(());
            }
        }
        number = number.saturating_add(1);
    }
    desk.end().map_err(|bad| at_line(number, bad))
}

struct Unfold;

impl Program<HostRuntime> for Unfold {
    const NAME: &'static str = "unfold";

    const PREFIX: &'static str = "unfold: ";

    const USAGE: &'static str = "usage: unfold < TABLE
Reads a table of moduli, bounds and rows, and prints for each row
  folds 14 10 8 unfolded 439 436 437 start 437 count 2 mean 437
or why it is refused, as
  refused 16 channel 0 depth 0
A refused setting is printed alone. Bad text ends the program with status 1.
";

    fn job(rt: &HostRuntime) -> anyhow::Result<()> {
        let mut out = BufWriter::new(rt.alloc(), rt.stdout())?;
        let ended = read_table(
            rt.alloc(),
            BufReader::new(rt.alloc(), rt.stdin())?,
            &mut out,
        );
        out.flush()?;
        ended
    }
}

fn main(rt: HostRuntime) -> ExitCode {
    serve::<Unfold, _>(&rt)
}

#[cfg(test)]
mod tests {
    use super::*;
    use settings::Setting;
    use std::test::Fail;

    // What a table prints, and what is reported of it.
    fn outcome(heap: Global, table: &[u8]) -> Result<(Vec<u8>, String), Fail> {
        let mut out = Vec::new(heap);
        let told = match read_table(heap, table, &mut out) {
            Ok(()) => String::new(heap),
            Err(e) => e.to_string(heap)?,
        };
        Ok((out, told))
    }

    #[test]
    fn rows_before_bad_text_are_printed(rt: HostRuntime) -> Result<(), Fail> {
        let (out, told) = outcome(
            rt.alloc(),
            b"moduli 30 40 50\nbounds 2 2 2\n19 36 37\n19 x 37\n19 36 37\n",
        )?;
        assert_eq!(rt;
            out.as_slice(),
            b"folds 14 10 8 unfolded 439 436 437 start 437 count 2 mean 437\n".as_slice()
        );
        assert_eq!(rt; told.as_str(), "line 4: word 2 is no number");
        Ok(())
    }

    #[test]
    fn a_refused_setting_stands_alone(rt: HostRuntime) -> Result<(), Fail> {
        let (out, told) = outcome(rt.alloc(), b"moduli 30 60\nbounds 2 2\n1 x\n")?;
        assert_eq!(rt; out.as_slice(), b"refused 3 channel 0 depth 0\n".as_slice());
        assert_eq!(rt; told.as_str(), "");
        Ok(())
    }

    // No table has one modulus alone, so a single channel is tried here.
    #[test]
    fn one_channel_brackets_its_reading(rt: HostRuntime) -> Result<(), Fail> {
        let Ok(setting) = Setting::new(10, &[3]) else {
            return Err(Fail::new("no setting"));
        };
        let Ok(found) = unfolding::unfold(&setting, &[29], &[2]) else {
            return Err(Fail::new("refused"));
        };
        assert_eq!(rt; (found.start(), found.count(), found.mean()), (27, 5, 29));
        Ok(())
    }

    #[test]
    fn the_end_counts_one_line_more(rt: HostRuntime) -> Result<(), Fail> {
        let (out, told) = outcome(rt.alloc(), b"# nothing\nmoduli 30 40 50")?;
        assert_eq!(rt; out.len(), 0);
        assert_eq!(rt; told.as_str(), "line 3: no bounds line");
        Ok(())
    }
}
