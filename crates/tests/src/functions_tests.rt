// Values, refusals and bounds of the functions.
use crate::examples::{four, made, refused};
use bounds::lower_bound;
use dual_feasible::{DualFeasible, Superadditive};
use faults::{Fault, Layer, Refusal};
use foreign::Zero;
use functions::counting::Counting;
use functions::division::Division;
use functions::identity::Identity;
use functions::rounding::Rounding;
use functions::threshold::Threshold;
use std::test::Fail;

#[test]
fn values(rt: HostRuntime) -> Result<(), Fail> {
    let threshold = Threshold::new(10, 4)?;
    assert_eq!(rt; four(&threshold, [3, 4, 6, 7])?, [0, 4, 6, 10]);
    let rounding = Rounding::new(10, 2)?;
    assert_eq!(rt; four(&rounding, [3, 4, 7, 10])?, [0, 10, 20, 20]);
    assert_eq!(rt; rounding.capacities(), (10, 20));
    let counting = Counting::new(10, 3)?;
    assert_eq!(rt; four(&counting, [2, 5, 6, 8])?, [0, 1, 2, 3]);
    assert_eq!(rt; counting.capacities(), (10, 3));
    let division = Division::new(10, 3)?;
    assert_eq!(rt; four(&division, [2, 3, 8, 10])?, [0, 1, 2, 3]);
    assert_eq!(rt; division.capacities(), (10, 3));
    Ok(())
}

#[test]
fn capacities_in_range(rt: HostRuntime) {
    assert_eq!(rt; made(Identity::new(0)), refused(Refusal::Capacity, 0));
    assert_eq!(rt; made(Identity::new(1)), Ok(()));
    assert_eq!(rt; made(Identity::new(1_000_000_000)), Ok(()));
    assert_eq!(rt;
        made(Identity::new(1_000_000_001)),
        refused(Refusal::Capacity, 1_000_000_001)
    );
    assert_eq!(rt; made(Threshold::new(0, 6)), refused(Refusal::Capacity, 0));
    assert_eq!(rt;
        made(Rounding::new(u64::MAX, u64::MAX)),
        refused(Refusal::Capacity, u64::MAX)
    );
}

#[test]
fn parameters_in_range(rt: HostRuntime) {
    assert_eq!(rt; made(Threshold::new(10, 5)), Ok(()));
    assert_eq!(rt; made(Threshold::new(10, 6)), refused(Refusal::Parameter, 6));
    assert_eq!(rt;
        made(Threshold::new(10, u64::MAX)),
        refused(Refusal::Parameter, u64::MAX)
    );
    assert_eq!(rt;
        made(Rounding::new(1_000_001, 1_001)),
        refused(Refusal::Parameter, 1_001)
    );
    assert_eq!(rt; made(Rounding::new(1_000_000, 1_000)), Ok(()));
    assert_eq!(rt;
        made(Rounding::new(1_000_001, 1_000)),
        refused(Refusal::ImageCapacity, 1_000_001)
    );
    assert_eq!(rt; made(Division::new(10, 0)), refused(Refusal::Parameter, 0));
    assert_eq!(rt;
        made(Division::new(10, 11)),
        refused(Refusal::Parameter, 11)
    );
    assert_eq!(rt; made(Counting::new(10, 0)), refused(Refusal::Parameter, 0));
    assert_eq!(rt; made(Counting::new(10, 6)), refused(Refusal::Parameter, 6));
}

#[test]
fn sizes_in_range(rt: HostRuntime) -> Result<(), Fail> {
    let identity = Identity::new(10)?;
    assert_eq!(rt; identity.value(10), Ok(10));
    assert_eq!(rt;
        identity.value(11),
        Err(Fault::new(Refusal::Size, Layer::Function, 11))
    );
    assert_eq!(rt;
        identity.value(u64::MAX),
        Err(Fault::new(Refusal::Size, Layer::Function, u64::MAX))
    );
    Ok(())
}

#[test]
fn bounds_of_lists(rt: HostRuntime) -> Result<(), Fail> {
    let identity = Identity::new(10)?;
    assert_eq!(rt; lower_bound(&identity, &[]), Ok(0));
    assert_eq!(rt; lower_bound(&identity, &[4; 5]), Ok(2));
    assert_eq!(rt; lower_bound(&Rounding::new(10, 2)?, &[4; 5]), Ok(3));
    assert_eq!(rt; lower_bound(&Threshold::new(60, 30)?, &[31; 7]), Ok(7));
    assert_eq!(rt; lower_bound(&identity, &[10; 64]), Ok(64));
    assert_eq!(rt;
        lower_bound(&identity, &[11; 65]),
        Err(Fault::new(Refusal::TooMany, Layer::Bound, 64))
    );
    assert_eq!(rt;
        lower_bound(&identity, &[10, 0, 11, 12]),
        Err(Fault::new(Refusal::Size, Layer::Bound, 2))
    );
    Ok(())
}

#[test]
fn a_function_from_outside(rt: HostRuntime) -> Result<(), Fail> {
    let zero = Zero::new(10)?;
    assert_eq!(rt; zero.own_capacities(), (10, 1));
    assert_eq!(rt; four(&zero, [0, 1, 9, 10])?, [0, 0, 0, 0]);
    assert_eq!(rt; lower_bound(&zero, &[10; 64]), Ok(0));
    Ok(())
}
