// A sink of one record, which it owns.
ghost use Rattle.std.specs.Prelude.{◌≡◌, is_some, None};
ghost use Rattle.std.specs.Option.{option_map, option_to_list};

use crate::{AppendRefusal, Sink};

/// Room for one record, without a lender. A list of calls that each log one
/// record at most can hold a slot for each of them.
#[derive(Drop)]
pub struct Slot<T> {
    kept: Option<T>,
}

impl<T: Drop> Slot<T> {
    /// A slot with no record.
    pub fn new() -> Slot<T>
        ensures { result.kept ≡ None }
    {
        Slot { kept: None }
    }

    /// The record, or none.
    pub fn record(&self) -> Option<&T>
        ensures { option_map (λ x. x.now) result ≡ self.now.kept }
    {
        self.kept.as_ref()
    }
}

impl<T: Drop> Sink<T> for Slot<T> {
    ghost full = { λ s. is_some s.kept };

    ghost entries = { λ s. option_to_list s.kept };

    fn is_full(&self) -> bool {
        self.kept.is_some()
    }

    fn append(&mut self, record: T) -> Result<(), AppendRefusal> {
        if self.is_full() {
            return Err(AppendRefusal::Full);
        }
        self.kept = Some(record);
        Ok(())
    }
}
