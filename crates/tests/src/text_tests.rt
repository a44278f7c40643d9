// Texts whose rows each name a function, and what is printed of them.
use crate::texts::{COMMON, check_cases, check_limits, fault, fault_of};
use faults::{Layer, Refusal};
use std::test::Fail;
use text::answer;

// Texts that are answered so by these rows alone.
const CASES: [(&str, &str); 1] = [("bar 8\nsymmetrise 0\n", "refused 12 line 2\n")];

#[test]
fn cases(rt: HostRuntime) -> Result<(), Fail> {
    check_cases(&rt, rt.alloc(), answer, &COMMON)?;
    check_cases(&rt, rt.alloc(), answer, &CASES)
}

#[test]
fn faults_whole(rt: HostRuntime) -> Result<(), Fail> {
    let heap = rt.alloc();
    assert_eq!(rt; fault_of(heap, answer, b"bar 8\n")?, None);
    assert_eq!(rt;
        fault_of(heap, answer, b"bar 0\n")?,
        fault(Refusal::Capacity, Layer::Function, 0)
    );
    assert_eq!(rt;
        fault_of(heap, answer, b"bar 10\nthreshold 6\n")?,
        fault(Refusal::Parameter, Layer::Function, 6)
    );
    assert_eq!(rt;
        fault_of(heap, answer, b"bar 1000001\nrounding 1000\n")?,
        fault(Refusal::ImageCapacity, Layer::Function, 1_000_001)
    );
    assert_eq!(rt;
        fault_of(heap, answer, b"bar 10\ncut 11\n")?,
        fault(Refusal::Size, Layer::Text, 11)
    );
    assert_eq!(rt;
        fault_of(heap, answer, b"bar 10\ncut 1\ncut\n")?,
        fault(Refusal::Malformed, Layer::Text, 3)
    );
    Ok(())
}

#[test]
fn limits(rt: HostRuntime) -> Result<(), Fail> {
    check_limits(&rt, rt.alloc(), answer)
}
