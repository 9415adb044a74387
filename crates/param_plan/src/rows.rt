use curve_plan::Curve;
use mib_model::{CurRow, OcfRow, OcpRow, PcfRow};
use std::sync::Arc;

/// The rows that a parameter's plan depends on: its own, its selections by POS, the curve of CURTX or else one for each
/// selection, its check, and its limits by POS. A curve is missing where the parameter has category `T`; it is compiled, and may be
/// shared with other parameters.
#[derive(Drop)]
pub struct ParamRows {
    pub pcf: PcfRow,
    pub curs: Vec<CurRow>,
    pub curves: Vec<Option<Arc<Curve>>>,
    pub ocf: Option<OcfRow>,
    pub ocps: Vec<OcpRow>,
}
