// The lower figure of a cutting list: the greatest of the bounds that its functions give.
ghost use Rattle.text.specs.Guarantee.{no_fewer_bars};
ghost use Rattle.text.specs.Lower.{lower_of};

use crate::rows::FunctionRows;
use bounds::lower_bound;
use faults::Fault;
use functions::identity::Identity;
use listings::printing::Bounding;

impl Bounding for FunctionRows {
    ghost figure = { lower_of };

    ghost sound = { no_fewer_bars };

    // The greatest of the identity's bound and the bounds of the rows.
    fn lower_figure(&self, cuts: &[u64]) -> Result<u64, Fault> {
        let identity = Identity::new(self.capacity)?;
        let mut greatest = lower_bound(&identity, cuts)?;
        for function in self.functions.as_slice() {
            greatest = greatest.max(lower_bound(function, cuts)?);
        }
        Ok(greatest)
    }
}
