// What the rows of a text are kept in.
ghost use Rattle.std.specs.Prelude.{◌≡◌, ℕ, List};
ghost use Rattle.faults.specs.Faults.{outcome, checked, kept_or};
ghost use Rattle.listings.specs.Laying.{Laying};

use faults::Fault;
use lines::words::RowWords;

// The rows of a text, from its `bar` line on.
pub trait Rows: RowWords + Drop {
    // what a row is for a reader
    type Row;

    // the bar's capacity, and the rows in their order
    ghost seen: { Self → ℕ × List Self.Row };

    ghost laying: { Laying Self.Kind Self.Row };

    // No rows yet, for the capacity of the `bar` line.
    fn begin(capacity: u64) -> Result<Self, Fault>
        ensures { outcome seen result ≡ laying.begun capacity };

    // The bar's capacity.
    fn bar(&self) -> u64
        ensures { result ≡ (seen self.now).0 };

    // One row more.
    fn add(&mut self, kind: Self::Kind, parameter: u64) -> Result<(), Fault>
        ensures answer { result ≡ checked (laying.added (seen self.old).0 (seen self.old).1 kind parameter) }
        ensures rows { seen self.new ≡ ((seen self.old).0, kept_or (seen self.old).1 (laying.added (seen self.old).0 (seen self.old).1 kind parameter)) };
}
