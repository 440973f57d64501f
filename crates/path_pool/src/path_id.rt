/// Names a path of a [`PathPool`](crate::PathPool), by the place of its first cell. It stands for
/// that path while the cell is live; afterwards another path may get the same name.
#[derive(Clone, Copy, Debug, PartialEq, Eq)]
pub struct PathId(pub u32);
