// Texts whose rows are laid on a pile, and what is printed of them.
use crate::texts::{COMMON, check_cases, check_limits, fault, fault_of, repeated};
use faults::{Layer, Refusal};
use pile_text::answer;
use std::test::Fail;

// Texts that are answered so by these rows alone.
const CASES: [(&str, &str); 14] = [
    ("bar 500000000\nsymmetrise 0\n", "lower 0\n"),
    // Rows are laid in the order of the lines. A 6 is 10 of 10 under threshold 5 and then mirrored, with v(4) = 0, to 20 of
    // 20: three bars. Mirrored first it is 12 of 20, where threshold 5 leaves it: 36 / 20, two bars.
    (
        "bar 10\ncut 6\ncut 6\ncut 6\nthreshold 5\nsymmetrise 0\n",
        "lower 3\n",
    ),
    (
        "bar 10\nsymmetrise 0\nthreshold 5\ncut 6\ncut 6\ncut 6\n",
        "lower 2\n",
    ),
    // All six kinds; the identity's bound is 64 / 12, so 6. The image capacities are 12, 18, 72, 144, 72 and 14.
    // A 7 goes 7, 10, 36; mirrored 144 - 2 x 18 = 108, as a 5 goes 5, 7, 18; then 54, and 14 - (72 - 54) / 5 = 11.
    // A 9 goes 12, 18, 72; mirrored 144, as a 3 goes 0; then 72, and 14. Together 4 x 11 + 4 x 14 = 100, 100 / 14: 8 bars.
    (
        "bar 12\nthreshold 4\ncut 7\nscale 18\ncut 9\nrounding 4\ncut 7\nsymmetrise 0\ncut 9\ndivision 2\ncut 7\ncut 9\ncounting 5\ncut 7\ncut 9\n",
        "lower 8\n",
    ),
    ("bar 10\nsymmetrise 1\n", "refused 2 line 2\n"),
    ("bar 10\nscale 0\n", "refused 2 line 2\n"),
    ("bar 10\nscale 1000000001\n", "refused 2 line 2\n"),
    ("bar 10\ndivision 2\ncounting 3\n", "refused 2 line 3\n"),
    (
        "bar 10\ncounting 3\ncut 4\nsymmetrise 0\n",
        "refused 8 line 4\n",
    ),
    ("bar 10\ncounting 3\nsymmetrise 1\n", "refused 2 line 3\n"),
    (
        "bar 10\nscale 1000001\nrounding 1000\n",
        "refused 3 line 3\n",
    ),
    ("bar 500000001\nsymmetrise 0\n", "refused 3 line 2\n"),
    ("bar 8\nsymmetrise\n", "refused 12 line 2\n"),
    ("bar 8\nmirror 0\n", "refused 12 line 2\n"),
];

#[test]
fn pile_text_cases(rt: HostRuntime) -> Result<(), Fail> {
    check_cases(&rt, rt.alloc(), answer, &COMMON)?;
    check_cases(&rt, rt.alloc(), answer, &CASES)
}

#[test]
fn pile_text_faults_whole(rt: HostRuntime) -> Result<(), Fail> {
    let heap = rt.alloc();
    assert_eq!(rt; fault_of(heap, answer, b"bar 8\n")?, None);
    assert_eq!(rt;
        fault_of(heap, answer, b"bar 0\n")?,
        fault(Refusal::Capacity, Layer::Pile, 0)
    );
    assert_eq!(rt;
        fault_of(heap, answer, b"bar 10\nthreshold 6\n")?,
        fault(Refusal::Parameter, Layer::Pile, 0)
    );
    assert_eq!(rt;
        fault_of(heap, answer, b"bar 10\nthreshold 5\ncut 3\ncounting 6\n")?,
        fault(Refusal::Parameter, Layer::Pile, 1)
    );
    assert_eq!(rt;
        fault_of(heap, answer, b"bar 10\ncounting 3\nsymmetrise 0\n")?,
        fault(Refusal::CountingBeneath, Layer::Pile, 1)
    );
    assert_eq!(rt;
        fault_of(heap, answer, b"bar 1000001\nrounding 1000\n")?,
        fault(Refusal::ImageCapacity, Layer::Pile, 0)
    );
    assert_eq!(rt;
        fault_of(heap, answer, b"bar 10\ncut 11\n")?,
        fault(Refusal::Size, Layer::Text, 11)
    );
    assert_eq!(rt;
        fault_of(heap, answer, b"bar 10\ncut 1\ncut\n")?,
        fault(Refusal::Malformed, Layer::Text, 3)
    );
    Ok(())
}

#[test]
fn pile_text_limits(rt: HostRuntime) -> Result<(), Fail> {
    let heap = rt.alloc();
    check_limits(&rt, heap, answer)?;
    assert_eq!(rt;
        fault_of(
            heap,
            answer,
            repeated(heap, "bar 8\n", "scale 8\n", 9)?.as_bytes()
        )?,
        fault(Refusal::TooMany, Layer::Pile, 8)
    );
    Ok(())
}
