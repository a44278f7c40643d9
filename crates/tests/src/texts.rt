// What the examples of texts share, over the call that answers a text.
use faults::{Fault, Layer, Refusal};
use listings::printing::Printed;
use std::alloc::{AllocError, Global};
use std::process::Abort;
use std::test::Fail;

// Texts and the lines that answer them, whatever their rows are kept in.
pub(crate) const COMMON: [(&str, &str); 35] = [
    // accepted
    ("bar 8\n", "lower 0\n"),
    (
        "bar 8\ncut 4\ncut 3\ncut 3\ncut 2\ncut 2\ncut 2\n",
        "lower 2\n",
    ),
    ("bar 10\ncut 4\ncut 4\ncut 4\ncut 4\ncut 4\n", "lower 2\n"),
    (
        "bar 10\ncut 4\ncut 4\nrounding 2\ncut 4\ncut 4\ncut 4\n",
        "lower 3\n",
    ),
    (
        "bar 10\nrounding 2\ncut 4\ncut 4\ncut 4\ncut 4\ncut 4\ndivision 10\n",
        "lower 3\n",
    ),
    (
        "bar 60\ncut 31\ncut 31\ncut 31\ncut 31\ncut 31\ncut 31\ncut 31\n",
        "lower 4\n",
    ),
    (
        "bar 60\ncut 31\ncut 31\ncut 31\ncut 31\ncut 31\ncut 31\ncut 31\nthreshold 30\n",
        "lower 7\n",
    ),
    (
        "bar 60\ncut 31\ncut 31\ncut 31\ncut 31\ncut 31\ncut 31\ncut 31\ncounting 30\n",
        "lower 7\n",
    ),
    ("bar 1000000000\ncut 1000000000\ncut 1\n", "lower 2\n"),
    ("bar 10\nthreshold 5\n", "lower 0\n"),
    ("bar 1000000\nrounding 1000\n", "lower 0\n"),
    // the bar
    ("bar 0\n", "refused 1 line 1\n"),
    ("bar 1000000001\n", "refused 1 line 1\n"),
    ("bar 9999999999\ncut\n", "refused 1 line 1\n"),
    // rows
    ("bar 10\nthreshold 6\n", "refused 2 line 2\n"),
    ("bar 10\ncut 3\nrounding 0\n", "refused 2 line 3\n"),
    ("bar 10\nrounding 1001\n", "refused 2 line 2\n"),
    ("bar 10\ndivision 11\n", "refused 2 line 2\n"),
    ("bar 10\ncounting 0\n", "refused 2 line 2\n"),
    ("bar 10\ncounting 6\n", "refused 2 line 2\n"),
    ("bar 1000001\nrounding 1000\n", "refused 3 line 2\n"),
    // cuts
    ("bar 10\ncut 0\n", "refused 4 line 2\n"),
    ("bar 10\ncut 10\ncut 11\n", "refused 4 line 3\n"),
    // out of form
    ("", "refused 12 line 1\n"),
    ("\n", "refused 12 line 1\n"),
    ("cut 4\nbar 8\n", "refused 12 line 1\n"),
    ("threshold 4\n", "refused 12 line 1\n"),
    ("bar 8\nbar 8\n", "refused 12 line 2\n"),
    ("bar 8\ncut\n", "refused 12 line 2\n"),
    ("bar 8\ncut  4\n", "refused 12 line 2\n"),
    ("bar 8\ncut 04\n", "refused 12 line 2\n"),
    ("bar 8\ncut 12345678901\n", "refused 12 line 2\n"),
    ("bar 8\ncut 4", "refused 12 line 2\n"),
    ("bar 8\ncut 9\ncut 4", "refused 4 line 2\n"),
    ("bar 8\n\ncut 9\n", "refused 12 line 2\n"),
];

// Each text is answered by the line beside it, and is refused where that line says so.
pub(crate) fn check_cases<F: Fn(Global, &[u8]) -> Result<Printed, AllocError>>(
    rt: &impl Abort,
    heap: Global,
    answer: F,
    cases: &[(&str, &str)],
) -> Result<(), Fail>
    requires { F.IsAlwaysCallable answer }
{
    for (text, line) in cases {
        let printed = answer(heap, text.as_bytes())?;
        assert!(rt; printed.text.as_str() == *line, "{}", text);
        assert!(rt;
            printed.refused.is_some() == line.starts_with("refused"),
            "{}",
            text
        );
    }
    Ok(())
}

// The fault of a text, where it is refused.
pub(crate) fn fault_of<F: Fn(Global, &[u8]) -> Result<Printed, AllocError>>(
    heap: Global,
    answer: F,
    text: &[u8],
) -> Result<Option<Fault>, AllocError>
    requires { F.IsAlwaysCallable answer }
{
    let printed = answer(heap, text)?;
    Ok(printed.refused)
}

pub(crate) fn fault(refusal: Refusal, layer: Layer, figure: u64) -> Option<Fault> {
    Some(Fault::new(refusal, layer, figure))
}

// A text that repeats one line after the others.
pub(crate) fn repeated(
    heap: Global,
    first: &str,
    line: &str,
    times: usize,
) -> Result<String, AllocError> {
    let mut text = String::from_str(heap, first)?;
    for _ in 0..times {
        text.push_str(line)?;
    }
    Ok(text)
}

// A text of a first part and a line so many times is answered by a line.
fn check_repeated<F: Fn(Global, &[u8]) -> Result<Printed, AllocError>>(
    rt: &impl Abort,
    heap: Global,
    answer: F,
    repeats: (&str, &str, usize),
    printed: &str,
) -> Result<(), Fail>
    requires { F.IsAlwaysCallable answer }
{
    let (first, line, times) = repeats;
    let text = repeated(heap, first, line, times)?;
    let told = answer(heap, text.as_bytes())?;
    assert!(rt; told.text.as_str() == printed, "{}", printed);
    Ok(())
}

// Texts at the limits of cuts, rows and bytes are answered by these lines.
pub(crate) fn check_limits<F: Fn(Global, &[u8]) -> Result<Printed, AllocError> + Copy>(
    rt: &impl Abort,
    heap: Global,
    answer: F,
) -> Result<(), Fail>
    requires { F.IsAlwaysCallable answer }
{
    let eight = "bar 8\ncut 8\n";
    check_repeated(rt, heap, answer, ("bar 8\n", "cut 1\n", 64), "lower 8\n")?;
    check_repeated(
        rt,
        heap,
        answer,
        ("bar 8\n", "cut 1\n", 65),
        "refused 6 line 66\n",
    )?;
    check_repeated(rt, heap, answer, (eight, "threshold 4\n", 8), "lower 1\n")?;
    check_repeated(
        rt,
        heap,
        answer,
        (eight, "threshold 5\n", 8),
        "refused 2 line 3\n",
    )?;
    check_repeated(
        rt,
        heap,
        answer,
        (eight, "threshold 4\n", 9),
        "refused 6 line 11\n",
    )?;
    check_repeated(rt, heap, answer, ("", "#", 65_536), "refused 12 line 1\n")?;
    check_repeated(rt, heap, answer, ("", "#", 65_537), "refused 12 line 0\n")
}
