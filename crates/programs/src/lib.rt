// What the programs of the desk share: how they are called, how they tell an error, and their status.
#![tactic(auto)]

ghost use Rattle.std.specs.Prelude.{◌≡◌, ◌≤◌, ◌≢◌, codes, IfOk, IfSome, IsNone, MatchResult};
ghost use Rattle.std.specs.Process.{exit_status};

use std::alloc::Global;
use std::env;
use std::env::Env;
use std::process::ExitCode;

/// A program of the desk, on the runtime `R`.
pub trait Program<R> {
    /// Its name.
    const NAME: &'static str;

    /// What stands before each of its errors.
    const PREFIX: &'static str;

    /// How it is used.
    const USAGE: &'static str;

    /// What it does when it is called with no argument.
    fn job(rt: &R) -> anyhow::Result<()>;
}

/// Runs a program, and answers its status: 0, or 1 after an error, which is one line on standard error.
pub fn serve<P: Program<R>, R: Env + Alloc<A = Global> + Print + Eprint>(rt: &R) -> ExitCode
    ensures { exit_status result ≤ 1 }
{
    tell(rt, P::PREFIX, run::<P, R>(rt))
}

/// The status that a run ended with. An error is told on standard error, after the prefix.
fn tell<R: Eprint>(rt: &R, prefix: &str, ended: anyhow::Result<ExitCode>) -> ExitCode
    ensures { MatchResult ended (λ status. result ≡ status) (λ _. exit_status result ≡ 1) }
{
    match ended {
        Ok(status) => status,
        Err(e) => {
            let _ = eprintln!(rt; "{prefix}{e}");
            ExitCode::FAILURE
        }
    }
}

/// Calls a program with the argument of the command line.
fn run<P: Program<R>, R: Env + Alloc<A = Global> + Print + Eprint>(
    rt: &R,
) -> anyhow::Result<ExitCode>
    ensures { IfOk result (λ status. exit_status status ≤ 1) }
{
    let first = env::args(rt)?.nth(1);
    call::<P, R>(rt, first.as_deref())
}

/// Does the job where there is no argument, prints the usage at `--help`, and takes nothing else.
fn call<P: Program<R>, R: Print + Eprint>(
    rt: &R,
    argument: Option<&str>,
) -> anyhow::Result<ExitCode>
    ensures job { IsNone argument.entry → IfOk result (λ status. exit_status status ≡ 0) }
    ensures help { IfSome argument.entry (λ word. word.now ≡ codes "--help" → IfOk result (λ status. exit_status status ≡ 0)) }
    ensures unknown { IfSome argument.entry (λ word. word.now ≢ codes "--help" → IfOk result (λ status. exit_status status ≡ 1)) }
{
    match argument {
        None => P::job(rt)?,
        Some("--help") => rt.print(P::USAGE)?,
        Some(_) => {
            let name = P::NAME;
            let _ = eprintln!(rt; "{name}: unknown argument; --help tells the usage");
            return Ok(ExitCode::FAILURE);
        }
    }
    Ok(ExitCode::SUCCESS)
}

#[cfg(test)]
mod tests;
