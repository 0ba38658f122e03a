// show: prints the recording on standard input as a table.
#![tactic(auto)]

use programs::{Program, serve};
use sheets::printed;
use std::io::Read;
use std::process::ExitCode;

struct Show;

impl Program<HostRuntime> for Show {
    const NAME: &'static str = "show";

    const PREFIX: &'static str = "show: ";

    const USAGE: &'static str = "usage: show < RECORDING
Prints the recording as a table of moduli, bounds and rows, or why it is none, as
  refused 48 channel 0 depth 0
";

    fn job(rt: &HostRuntime) -> anyhow::Result<()> {
        let mut bytes = Vec::new(rt.alloc());
        rt.stdin().read_to_end(&mut bytes)?;
        rt.print(printed(rt.alloc(), bytes.as_slice())?.as_str())?;
        Ok(())
    }
}

fn main(rt: HostRuntime) -> ExitCode {
    serve::<Show, _>(&rt)
}

#[cfg(test)]
mod tests {
    use super::*;
    use sheets::{Sheet, recorded};
    use std::test::Fail;

    // A recording is printed as the table it was made from.
    #[test]
    fn a_table_comes_back(rt: HostRuntime) -> Result<(), Fail> {
        let heap = rt.alloc();
        let lines = [
            b"note rail 4".as_slice(),
            b"moduli 30 40",
            b"bounds 2 0",
            b"19 -",
        ];
        let sheet = lines
            .iter()
            .try_fold(Sheet::new(heap), |sheet, line| sheet.line(line))?;
        let bytes = sheet.record(heap)?;
        assert_eq!(rt;
            printed(heap, bytes.as_slice())?.as_str(),
            "note rail 4\nmoduli 30 40\nbounds 2 0\n19 -\n"
        );
        Ok(())
    }

    // A text is recorded, and its recording is printed as the same text.
    #[test]
    fn whole_tables_come_back(rt: HostRuntime) -> Result<(), Fail> {
        let heap = rt.alloc();
        let tables = [
            "moduli 30 40\nbounds 2 0\n",
            "note  two spaces before, one behind \nmoduli 30\nbounds 2\n-\n29\n-\n",
            "moduli 9 9 9 9 9 9 9 9\nbounds 2 1 0 2 1 0 2 1\n- 1 2 3 4 5 6 -\n0 0 0 0 0 0 0 4294967294\n",
        ];
        for table in tables {
            let bytes = recorded(heap, table.as_bytes())?;
            assert_eq!(rt; printed(heap, bytes.as_slice())?.as_str(), table);
        }
        Ok(())
    }

    #[test]
    fn no_recording_and_no_text(rt: HostRuntime) -> Result<(), Fail> {
        let heap = rt.alloc();
        assert_eq!(rt;
            printed(heap, b"short")?.as_str(),
            "refused 45 channel 0 depth 0\n"
        );
        // The note is a tab; one channel, no rows.
        let bytes =
            b"\x09\x1e\x00\x00\x00\x02\x00\x00\x00\x01\x00\x00\x00\x00\x00\x00\x00\x01\x00\x00\x00\x01\x00\x00\x00";
        assert_eq!(rt; printed(heap, bytes)?.as_str(), "moduli 30\nbounds 2\n");
        Ok(())
    }
}
