// What takes records one after another: a log, or anything else of the caller's.
ghost use Rattle.std.specs.Prelude.{◌≡◌, Bool, List};
ghost use Rattle.logs.specs.Logs.{Takes, full_log, held};

use crate::{AppendRefusal, Log};

/// A sink of records: it takes them one after another until it is full. A call
/// that is generic over its sinks can be given any log.
pub trait Sink<T> {
    ghost full: { Self → Bool };

    ghost entries: { Self → List T };

    /// Whether it takes no more.
    fn is_full(&self) -> bool
        ensures { result ≡ full self.now };

    /// Takes a record; where it is full it refuses and keeps what it has.
    fn append(&mut self, record: T) -> Result<(), AppendRefusal>
        ensures { Takes (full self.old) (entries self.old) «record» result (full self.new) (entries self.new) };
}

impl<'a, T: Drop> Sink<T> for Log<'a, T> {
    ghost full = { λ l. full_log l };

    ghost entries = { λ l. held l };

    fn is_full(&self) -> bool {
        self.is_full()
    }

    fn append(&mut self, record: T) -> Result<(), AppendRefusal> {
        self.append(record)
    }
}
