// Bounders, of the library and from outside, and the greater of two.
use bounds::Bounder;
use bounds::function_bound::FunctionBound;
use bounds::greater::Greater;
use faults::{Fault, Layer, Refusal};
use foreign::halves::Halves;
use functions::identity::Identity;
use std::test::Fail;

// The number of a list, of whatever tells one.
fn told<B: Bounder>(bounder: &B, list: &[u64]) -> Result<u64, Fault> {
    bounder.number(list)
}

// A refusal of this layer, which would be the same word in each call.
fn refused(refusal: Refusal, figure: u64) -> Fault {
    Fault::new(refusal, Layer::Bound, figure)
}

#[test]
fn a_bounder_from_outside(rt: HostRuntime) -> Result<(), Fail> {
    let halves = Halves::new(10)?;
    assert_eq!(rt; halves.capacity(), 10);
    assert_eq!(rt; told(&halves, &[5, 6, 10, 0]), Ok(2));
    assert_eq!(rt;
        told(&halves, &[11; 65]),
        Err(refused(Refusal::TooMany, 64))
    );
    assert_eq!(rt; told(&halves, &[10, 11]), Err(refused(Refusal::Size, 1)));
    Ok(())
}

#[test]
fn the_greater_of_two(rt: HostRuntime) -> Result<(), Fail> {
    let both = Greater::new(FunctionBound::new(Identity::new(10)?), Halves::new(10)?)?;
    assert_eq!(rt; both.capacity(), 10);
    assert_eq!(rt; told(&both, &[5; 6]), Ok(3));
    assert_eq!(rt; told(&both, &[6; 6]), Ok(6));
    assert_eq!(rt; told(&both, &[6, 11]), Err(refused(Refusal::Size, 1)));
    Ok(())
}

#[test]
fn capacities_that_differ(rt: HostRuntime) -> Result<(), Fail> {
    let answer = Greater::new(Halves::new(10)?, Halves::new(11)?);
    assert_eq!(rt; answer.err(), Some(refused(Refusal::CapacitiesDiffer, 11)));
    Ok(())
}
