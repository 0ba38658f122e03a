// Programs called on a runtime that keeps what they print and tell.
use crate::{Program, serve};
use anyhow::bail;
use std::alloc::{AllocError, Global};
use std::cell::RefCell;
use std::env::{Env, FillError};
use std::fmt::Display;
use std::io;
use std::process::ExitCode;
use std::test::Fail;

// One argument after the program's name, or none.
#[derive(Drop)]
struct Called {
    heap: Global,
    argument: Option<&'static str>,
    printed: RefCell<String>,
    told: RefCell<String>,
}

// Keeps a text after what is kept.
fn keep<D: Display + Drop>(heap: Global, kept: &RefCell<String>, value: D) -> io::Result<()> {
    let text = value.to_string(heap)?;
    let mut kept = kept
        .try_borrow_mut()
        .map_err(|_| io::Error::from(io::ErrorKind::Other))?;
    kept.push_str(text.as_str())?;
    Ok(())
}

impl Env for Called {
    fn arg(&self, i: usize, buf: &mut [u8]) -> Result<usize, FillError> {
        let word = match i {
            0 => "adder",
            1 => self.argument.ok_or(FillError::NotPresent)?,
            _ => return Err(FillError::NotPresent),
        };
        let place = buf.get_mut(..word.len()).ok_or(FillError::TooLong)?;
        place.copy_from_slice(word.as_bytes());
        Ok(word.len())
    }

    fn var(&self, _name: &str, _buf: &mut [u8]) -> Result<usize, FillError> {
        Err(FillError::NotPresent)
    }

    fn var_at(&self, _i: usize, _buf: &mut [u8]) -> Result<usize, FillError> {
        Err(FillError::NotPresent)
    }
}

impl Alloc for Called {
    type A = Global;

    fn alloc(&self) -> Global {
        self.heap
    }
}

impl Print for Called {
    fn print<D: Display + Drop>(&self, value: D) -> io::Result<()> {
        keep(self.heap, &self.printed, value)
    }

    fn println<D: Display + Drop>(&self, value: D) -> io::Result<()> {
        self.print(value)?;
        self.print("\n")
    }

    fn write_all(&self, _bytes: &[u8]) -> io::Result<()> {
        Err(io::Error::from(io::ErrorKind::Unsupported))
    }
}

impl Eprint for Called {
    fn eprint<D: Display + Drop>(&self, value: D) -> io::Result<()> {
        keep(self.heap, &self.told, value)
    }

    fn eprintln<D: Display + Drop>(&self, value: D) -> io::Result<()> {
        self.eprint(value)?;
        self.eprint("\n")
    }
}

// Prints a sum, on a runtime that can print.
struct Adder;

impl<R: Print> Program<R> for Adder {
    const NAME: &'static str = "adder";

    const PREFIX: &'static str = "adder: ";

    const USAGE: &'static str = "usage: adder\n";

    fn job(rt: &R) -> anyhow::Result<()> {
        println!(rt; "{}", 1 + 2)?;
        Ok(())
    }
}

// Fails, and tells its errors without its name.
struct Failing;

impl<R> Program<R> for Failing {
    const NAME: &'static str = "failing";

    const PREFIX: &'static str = "";

    const USAGE: &'static str = "usage: failing\n";

    fn job(_rt: &R) -> anyhow::Result<()> {
        bail!("no number")
    }
}

// The status, and what was printed and told.
fn outcome<P: Program<Called>>(
    heap: Global,
    argument: Option<&'static str>,
) -> Result<(ExitCode, String, String), AllocError> {
    let called = Called {
        heap,
        argument,
        printed: RefCell::new(String::new(heap)),
        told: RefCell::new(String::new(heap)),
    };
    let status = serve::<P, Called>(&called);
    let Called { printed, told, .. } = called;
    Ok((status, printed.into_inner(), told.into_inner()))
}

#[test]
fn a_job_is_done(rt: HostRuntime) -> Result<(), Fail> {
    let (status, printed, told) = outcome::<Adder>(rt.alloc(), None)?;
    assert_eq!(rt; status, ExitCode::SUCCESS);
    assert_eq!(rt; printed.as_str(), "3\n");
    assert_eq!(rt; told.as_str(), "");
    Ok(())
}

#[test]
fn help_is_printed(rt: HostRuntime) -> Result<(), Fail> {
    let (status, printed, told) = outcome::<Failing>(rt.alloc(), Some("--help"))?;
    assert_eq!(rt; status, ExitCode::SUCCESS);
    assert_eq!(rt; printed.as_str(), "usage: failing\n");
    assert_eq!(rt; told.as_str(), "");
    Ok(())
}

#[test]
fn other_arguments_are_told(rt: HostRuntime) -> Result<(), Fail> {
    let (status, printed, told) = outcome::<Failing>(rt.alloc(), Some("--hel"))?;
    assert_eq!(rt; status, ExitCode::FAILURE);
    assert_eq!(rt; printed.as_str(), "");
    assert_eq!(rt;
        told.as_str(),
        "failing: unknown argument; --help tells the usage\n"
    );
    Ok(())
}

#[test]
fn an_error_is_told(rt: HostRuntime) -> Result<(), Fail> {
    let (status, printed, told) = outcome::<Failing>(rt.alloc(), None)?;
    assert_eq!(rt; status, ExitCode::FAILURE);
    assert_eq!(rt; printed.as_str(), "");
    assert_eq!(rt; told.as_str(), "no number\n");
    Ok(())
}
