// Values and refusals of the layers.
use crate::examples::{four, made, refused};
use dual_feasible::DualFeasible;
use faults::Refusal;
use foreign::stacked::{scaled_counting, symmetrised_division};
use functions::division::Division;
use functions::identity::Identity;
use functions::rounding::Rounding;
use functions::threshold::Threshold;
use layers::composition::Composition;
use layers::scaling::Scaling;
use layers::symmetrisation::Symmetrisation;
use std::test::Fail;

#[test]
fn values_of_layers(rt: HostRuntime) -> Result<(), Fail> {
    let symmetrised = Symmetrisation::new(Division::new(10, 3)?)?;
    assert_eq!(rt; four(&symmetrised, [4, 5, 6, 8])?, [2, 3, 4, 6]);
    assert_eq!(rt; symmetrised.capacities(), (10, 6));
    assert_eq!(rt; symmetrised_division(10, 3, 8), Ok(6));
    assert_eq!(rt; Scaling::new(Identity::new(10)?, 5)?.value(7), Ok(3));
    assert_eq!(rt; scaled_counting(10, 3, 6, 8), Ok(6));
    // rounding 2 of 0, 0, 6 and 10 of 10
    let composed = Composition::new(Rounding::new(10, 2)?, Threshold::new(10, 4)?)?;
    assert_eq!(rt; four(&composed, [0, 3, 6, 7])?, [0, 0, 10, 20]);
    assert_eq!(rt; composed.capacities(), (10, 20));
    Ok(())
}

#[test]
fn refusals_of_layers(rt: HostRuntime) -> Result<(), Fail> {
    assert_eq!(rt;
        made(Composition::new(Identity::new(20)?, Identity::new(10)?)),
        refused(Refusal::CapacitiesDiffer, 10)
    );
    assert_eq!(rt;
        made(Symmetrisation::new(Identity::new(500_000_001)?)),
        refused(Refusal::ImageCapacity, 500_000_001)
    );
    assert_eq!(rt;
        made(Symmetrisation::new(Identity::new(500_000_000)?)),
        Ok(())
    );
    assert_eq!(rt;
        made(Scaling::new(Identity::new(10)?, 0)),
        refused(Refusal::Parameter, 0)
    );
    assert_eq!(rt;
        made(Scaling::new(Identity::new(10)?, 1_000_000_001)),
        refused(Refusal::Parameter, 1_000_000_001)
    );
    Ok(())
}
