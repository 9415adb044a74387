/// How far a walk has come beside its rows and values: the bit at which it stands, and the number of the last reference.
#[derive(Clone, Copy)]
pub struct WalkCourse {
    pub cursor: i128,
    pub last: i128,
}
