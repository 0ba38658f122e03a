// Logs: a list of records in places that the caller lends.
ghost use Rattle.std.specs.Prelude.{◌≡◌, ◌≤◌, [], length, MatchOption};

use crate::AppendRefusal;

/// A log: the first `count` of the places, oldest first.
// The caller lends the places, since the library has no heap: a count beside them says which are taken.
#[derive(Drop)]
pub struct Log<'a, T> {
    places: &'a mut [T],
    count: usize,
    ghost within: { count ≤ length places.now },
}

impl<'a, T: Drop> Log<'a, T> {
    ghost use Rattle.logs.specs.Logs.{Appended, StandsAt, full_log, held, places_of};

    /// A log with no records. What the places hold stays until a record is put there.
    pub fn new(places: &'a mut [T]) -> Log<'a, T>
        ensures empty { held result ≡ [] }
        ensures places { places_of result ≡ places.old }
        ensures lender { result.places.ghost_name ≡ places.entry.ghost_name }
    {
        Log { places, count: 0 }
    }

    /// The records, oldest first.
    pub fn records(&self) -> &[T]
        ensures { result.now ≡ held self.now }
    {
        &self.places[..self.count]
    }

    /// How many records there are.
    pub fn count(&self) -> usize
        ensures { result ≡ length (held self.now) }
    {
        self.records().len()
    }

    /// Whether there are as many records as places.
    pub fn is_full(&self) -> bool
        ensures { result ≡ full_log self.now }
    {
        self.count == self.places.len()
    }

    /// Record `k`, counted from 0, or none beyond the last.
    pub fn record(&self, k: usize) -> Option<&T>
        ensures { MatchOption result (length (held self.now) ≤ k) (λ x. StandsAt (held self.now) k x.now) }
    {
        self.records().get(k)
    }

    /// Puts a record after the others; a full log refuses it and stays as it was.
    pub fn append(&mut self, record: T) -> Result<(), AppendRefusal>
        ensures appended { Appended self.old «record» result self.new }
        ensures lender { self.new.places.ghost_name ≡ self.old.places.ghost_name }
    {
        if self.is_full() {
            return Err(AppendRefusal::Full);
        }
        self.places[self.count] = record;
        self.count += 1;
        Ok(())
    }

    /// Lets go of all records; the places stay as they are.
    pub fn empty(&mut self)
        ensures empty { held self.new ≡ [] }
        ensures places { places_of self.new ≡ places_of self.old }
        ensures lender { self.new.places.ghost_name ≡ self.old.places.ghost_name }
    {
        self.count = 0;
    }
}
