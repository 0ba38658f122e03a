// Result lines: a refusal or an unfolding as one line of text.
ghost use Rattle.std.specs.Prelude.{◌≡◌, IfOk, Some, string_bytes};
ghost use Rattle.tables.specs.Answers.{refusal_line, refusal_record, row_line, spaced_output, unfolding_line};

use records::Fault;
use std::alloc::{AllocError, Global};
use std::fmt;
use unfolding::{UnfoldRefusal, Unfolding};

/// Values, each after a space.
#[derive(Clone, Copy)]
pub struct Spaced<'a, T>(pub &'a [T]);

impl<T: fmt::Display> fmt::Display for Spaced<'_, T> {
    ghost output = { λ x. spaced_output T.output x.0.now };

    fn fmt<W: fmt::Write>(&self, f: &mut fmt::Formatter<W>) -> fmt::Result {
        for n in self.0 {
            write!(f, " {n}")?;
        }
        Ok(())
    }
}

/// A refusal as a result line.
pub fn refusal_line(heap: Global, fault: Fault) -> Result<String, AllocError>
    ensures { IfOk result (λ s. string_bytes s ≡ refusal_line fault) }
{
    fault.to_string(heap)
}

/// A refusal with its two figures, as it is printed.
#[derive(Clone, Copy)]
pub struct RefusalRecord(pub Fault);

impl fmt::Display for RefusalRecord {
    ghost output = { λ x. Some (refusal_record x.0) };

    fn fmt<W: fmt::Write>(&self, f: &mut fmt::Formatter<W>) -> fmt::Result {
        let fault = self.0;
        let Fault { first, second, .. } = fault;
        write!(f, "{fault} figures {first} {second}")
    }
}

/// A refusal with its two figures.
pub fn refusal_record(heap: Global, fault: Fault) -> Result<String, AllocError>
    ensures { IfOk result (λ s. string_bytes s ≡ refusal_record fault) }
{
    RefusalRecord(fault).to_string(heap)
}

/// An unfolding as it is printed.
#[derive(Clone, Copy)]
pub struct UnfoldingLine<'a>(pub &'a Unfolding);

impl fmt::Display for UnfoldingLine<'_> {
    ghost output = { λ x. Some (unfolding_line x.0.now) };

    fn fmt<W: fmt::Write>(&self, f: &mut fmt::Formatter<W>) -> fmt::Result {
        let folds = Spaced(self.0.folds());
        let unfolded = Spaced(self.0.unfolded());
        let start = self.0.start();
        let count = self.0.count();
        let mean = self.0.mean();
        write!(
            f,
            "folds{folds} unfolded{unfolded} start {start} count {count} mean {mean}"
        )
    }
}

/// An unfolding as a result line.
pub fn unfolding_line(heap: Global, found: &Unfolding) -> Result<String, AllocError>
    ensures { IfOk result (λ s. string_bytes s ≡ unfolding_line found.now) }
{
    UnfoldingLine(found).to_string(heap)
}

/// What a row comes to, as a result line.
pub fn row_line(heap: Global, row: Result<Unfolding, UnfoldRefusal>) -> Result<String, AllocError>
    ensures { IfOk result (λ s. string_bytes s ≡ row_line row) }
{
    match row {
        Ok(found) => unfolding_line(heap, &found),
        Err(refusal) => refusal_line(heap, refusal.into()),
    }
}
