// What a text says, as far as it is read.
ghost use Rattle.std.specs.Prelude.{◌≤◌, vec_capacity};

// The rows, which have the bar's capacity and are there once the bar is read, and the cuts. Clauses write its `content` out:
// as the value of a model it would name the rows' own type of row, and a model's value may not use a bound.
#[derive(Drop)]
pub struct Listing<R> {
    pub rows: Option<R>,
    pub cuts: Vec<u64>,
    // room for all the cuts that a text may have is reserved from the start, so that a listing stays small where it is moved
    ghost room: { 64 ≤ vec_capacity cuts },
}
