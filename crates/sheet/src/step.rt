// A step as it lies in memory: four numbers.

// A step: its operator's number, and its three fields.
#[derive(Clone, Copy, PartialEq, Eq, Debug)]
pub struct Step {
    pub operator: i64,
    pub a: i64,
    pub b: i64,
    pub c: i64,
}
