use mib_model::{CafRow, CapRow, LgfRow, McfRow, TxfRow, TxpRow};

/// The rows of a curve.
#[derive(Drop)]
pub enum CurveRows {
    /// A curve by points, with its points in any order.
    Points { caf: CafRow, caps: Vec<CapRow> },
    /// A curve by status texts, with its ranges in file order.
    Texts { txf: TxfRow, txps: Vec<TxpRow> },
    Poly(McfRow),
    Log(LgfRow),
}
