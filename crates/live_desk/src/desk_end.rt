/// How the script of a desk ended.
#[derive(Clone, Copy, Debug, PartialEq, Eq)]
pub enum DeskEnd {
    /// All lines were handled.
    Done,
    /// All lines that are taken were handled; the script goes on or fills its limit.
    Limit,
    /// The desk failed.
    DeskFault,
    /// The replies failed.
    ReplyFault,
}
