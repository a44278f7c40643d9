// The kinds of rows that each name a function.

// The function that a row names. The pile's kinds would be no plainer here: two of them mean nothing in these texts, and
// would need a case wherever a kind is matched. So would the pile's rows.
#[derive(Clone, Copy, PartialEq, Eq, Debug)]
pub enum Kind {
    Threshold,
    Rounding,
    Division,
    Counting,
}

// A row names a function by its kind and its parameter.
#[derive(Clone, Copy, PartialEq, Eq, Debug)]
pub struct Row {
    pub kind: Kind,
    pub parameter: u64,
}
