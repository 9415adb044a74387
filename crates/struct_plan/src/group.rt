/// A group to repeat: the row whose group it is, and how often it is still walked anew.
#[derive(Clone, Copy)]
pub struct RowGroup {
    pub row: u32,
    pub left: u32,
}
