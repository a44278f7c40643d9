// Piles, beside layered functions of the same make, and banks.
use banks::bank::Bank;
use bounds::Bounder;
use dual_feasible::DualFeasible;
use faults::{Fault, Layer, Refusal};
use functions::division::Division;
use functions::identity::Identity;
use functions::threshold::Threshold;
use layers::composition::Composition;
use layers::scaling::Scaling;
use layers::symmetrisation::Symmetrisation;
use piles::pile::Pile;
use piles::rows::{Kind, Row};
use std::test::Fail;

// Whether two functions have the same capacities and the same value at each size up to a limit above the capacity.
fn same<F: DualFeasible, G: DualFeasible>(f: &F, g: &G, limit: u64) -> bool {
    f.capacities() == g.capacities() && (0..limit).all(|size| f.value(size) == g.value(size))
}

// The pile of rows of kind and parameter.
fn pile(capacity: u64, rows: &[(u64, u64)]) -> Result<Pile, Fault> {
    let mut pile = Pile::new(capacity)?;
    for (kind, parameter) in rows {
        pile.lay(*kind, *parameter)?;
    }
    Ok(pile)
}

#[test]
fn piles_and_layers(rt: HostRuntime) -> Result<(), Fail> {
    assert!(rt; same(&pile(12, &[])?, &Identity::new(12)?, 15));
    // threshold 4, symmetrisation, symmetrisation, scaling to 7
    let layered = Scaling::new(
        Symmetrisation::new(Symmetrisation::new(Composition::new(
            Threshold::new(12, 4)?,
            Identity::new(12)?,
        )?)?)?,
        7,
    )?;
    assert!(rt; same(&pile(12, &[(1, 4), (5, 0), (5, 0), (6, 7)])?, &layered, 15));
    // symmetrisation, division 5: the other way round means another function
    let mirrored_first = Composition::new(
        Division::new(24, 5)?,
        Symmetrisation::new(Identity::new(12)?)?,
    )?;
    assert!(rt; same(&pile(12, &[(5, 0), (3, 5)])?, &mirrored_first, 15));
    assert!(rt; !same(&pile(12, &[(3, 5), (5, 0)])?, &mirrored_first, 15));
    Ok(())
}

// The answer to one row more, and the rows after it.
fn laid(
    capacity: u64,
    rows: &[(u64, u64)],
    kind: u64,
    parameter: u64,
) -> Result<(Result<(), Fault>, usize), Fault> {
    let mut pile = pile(capacity, rows)?;
    let answer = pile.lay(kind, parameter);
    Ok((answer, pile.rows().as_slice().len()))
}

// A refusal of a pile's layer, which would be the same word in each call.
fn refused(refusal: Refusal, row: u64) -> Result<(), Fault> {
    Err(Fault::new(refusal, Layer::Pile, row))
}

#[test]
fn rows_refused(rt: HostRuntime) -> Result<(), Fail> {
    assert_eq!(rt; laid(10, &[], 0, 4)?, (refused(Refusal::Parameter, 0), 0));
    assert_eq!(rt;
        laid(10, &[(1, 4)], 7, 4)?,
        (refused(Refusal::Parameter, 1), 1)
    );
    assert_eq!(rt;
        laid(10, &[(1, 4)], u64::MAX, 4)?,
        (refused(Refusal::Parameter, 1), 1)
    );
    assert_eq!(rt;
        laid(10, &[(4, 3), (6, 9)], 5, 0)?,
        (refused(Refusal::CountingBeneath, 2), 2)
    );
    assert_eq!(rt;
        laid(10, &[(4, 3)], 5, 1)?,
        (refused(Refusal::Parameter, 1), 1)
    );
    assert_eq!(rt;
        laid(10, &[(6, 500_000_001)], 5, 0)?,
        (refused(Refusal::ImageCapacity, 1), 1)
    );
    assert_eq!(rt;
        laid(10, &[(1, 1); 8], 9, 9)?,
        (refused(Refusal::TooMany, 8), 8)
    );
    assert_eq!(rt; laid(10, &[(1, 1); 7], 6, 1_000_000_000)?, (Ok(()), 8));
    Ok(())
}

#[test]
fn rows_plain(rt: HostRuntime) -> Result<(), Fail> {
    let rows = pile(10, &[(1, 4), (5, 0)])?.rows();
    let [first, second] = rows.as_slice() else {
        assert!(rt; false);
        return Ok(());
    };
    assert_eq!(rt;
        *first,
        Row {
            kind: Kind::Threshold,
            parameter: 4,
        }
    );
    assert_eq!(rt; second.kind, Kind::Symmetrisation);
    assert_eq!(rt;
        Pile::from_rows(10, rows.as_slice())?
            .rows()
            .as_slice()
            .len(),
        2
    );
    Ok(())
}

#[test]
fn a_bank_of_piles(rt: HostRuntime) -> Result<(), Fail> {
    let mut bank = Bank::new(10)?;
    assert_eq!(rt; bank.number(&[4; 5]), Ok(0));
    assert_eq!(rt; bank.best_pile(&[4; 5]), Ok(None));
    bank.add(&pile(10, &[])?)?;
    bank.add(&pile(10, &[(1, 0)])?)?;
    assert_eq!(rt; bank.number(&[4; 5]), Ok(2));
    assert_eq!(rt; bank.best_pile(&[4; 5]), Ok(Some(0)));
    bank.add(&pile(10, &[(2, 2)])?)?;
    assert_eq!(rt; bank.number(&[4; 5]), Ok(3));
    assert_eq!(rt; bank.best_pile(&[4; 5]), Ok(Some(2)));
    assert_eq!(rt; bank.best_pile(&[]), Ok(Some(0)));
    assert_eq!(rt;
        bank.best_pile(&[11; 65]),
        Err(Fault::new(Refusal::TooMany, Layer::Bound, 64))
    );
    assert_eq!(rt;
        bank.number(&[10, 11]),
        Err(Fault::new(Refusal::Size, Layer::Bound, 1))
    );
    Ok(())
}

#[test]
fn piles_refused_by_a_bank(rt: HostRuntime) -> Result<(), Fail> {
    let mut bank = Bank::new(10)?;
    let stranger = pile(11, &[])?;
    let own = pile(10, &[])?;
    for _ in 0..8 {
        assert_eq!(rt;
            bank.add(&stranger),
            Err(Fault::new(Refusal::CapacitiesDiffer, Layer::Bound, 11))
        );
        assert_eq!(rt; bank.add(&own), Ok(()));
    }
    assert_eq!(rt;
        bank.add(&own),
        Err(Fault::new(Refusal::TooMany, Layer::Bound, 8))
    );
    assert_eq!(rt;
        bank.add(&stranger),
        Err(Fault::new(Refusal::CapacitiesDiffer, Layer::Bound, 11))
    );
    assert_eq!(rt; bank.number(&[10; 64]), Ok(64));
    Ok(())
}
