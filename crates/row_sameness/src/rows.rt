// Sameness of the rows of each table.
ghost use Rattle.std.specs.Prelude.{◌≡◌};

use crate::same::Same;
use mib_model::{
    CafRow, CapRow, CurRow, LgfRow, McfRow, OcfRow, OcpRow, PcfRow, PicRow, PidRow, PlfRow, TxfRow,
    TxpRow, VpdRow,
};

impl Same for PcfRow {
    ghost use Rattle.mib_model.specs.SameRows.{same_pcf};
    ghost use Rattle.row_sameness.specs.Equal.{equal-pcf};

    ghost same = { same_pcf };

    ghost equates = { equal-pcf };

    #[tactic(auto, unfolding(mib_model::specs::Sameness::same_cells))]
    fn is_same(&self, other: &PcfRow) -> bool {
        self == other
    }
}

impl Same for PidRow {
    ghost use Rattle.mib_model.specs.SameRows.{same_pid};
    ghost use Rattle.row_sameness.specs.Equal.{equal-pid};

    ghost same = { same_pid };

    ghost equates = { equal-pid };

    #[tactic(auto, unfolding(mib_model::specs::Sameness::same_cells))]
    fn is_same(&self, other: &PidRow) -> bool {
        self == other
    }
}

impl Same for PicRow {
    ghost use Rattle.mib_model.specs.SameRows.{same_pic};
    ghost use Rattle.row_sameness.specs.Equal.{equal-pic};

    ghost same = { same_pic };

    ghost equates = { equal-pic };

    #[tactic(auto, unfolding(mib_model::specs::Sameness::same_cells))]
    fn is_same(&self, other: &PicRow) -> bool {
        self == other
    }
}

impl Same for PlfRow {
    ghost use Rattle.mib_model.specs.SameRows.{same_plf};
    ghost use Rattle.row_sameness.specs.Equal.{equal-plf};

    ghost same = { same_plf };

    ghost equates = { equal-plf };

    #[tactic(auto, unfolding(mib_model::specs::Sameness::same_cells))]
    fn is_same(&self, other: &PlfRow) -> bool {
        self == other
    }
}

impl Same for VpdRow {
    ghost use Rattle.mib_model.specs.SameRows.{same_vpd};
    ghost use Rattle.row_sameness.specs.Equal.{equal-vpd};

    ghost same = { same_vpd };

    ghost equates = { equal-vpd };

    #[tactic(auto, unfolding(mib_model::specs::Sameness::same_cells))]
    fn is_same(&self, other: &VpdRow) -> bool {
        self == other
    }
}

impl Same for CurRow {
    ghost use Rattle.mib_model.specs.SameRows.{same_cur};
    ghost use Rattle.row_sameness.specs.Equal.{equal-cur};

    ghost same = { same_cur };

    ghost equates = { equal-cur };

    #[tactic(auto, unfolding(mib_model::specs::Sameness::same_cells))]
    fn is_same(&self, other: &CurRow) -> bool {
        self == other
    }
}

impl Same for CafRow {
    ghost use Rattle.mib_model.specs.SameRows.{same_caf};
    ghost use Rattle.row_sameness.specs.Equal.{equal-caf};

    ghost same = { same_caf };

    ghost equates = { equal-caf };

    #[tactic(auto, unfolding(mib_model::specs::Sameness::same_cells))]
    fn is_same(&self, other: &CafRow) -> bool {
        self == other
    }
}

impl Same for CapRow {
    ghost use Rattle.mib_model.specs.SameRows.{same_cap};
    ghost use Rattle.row_sameness.specs.Equal.{equal-cap};

    ghost same = { same_cap };

    ghost equates = { equal-cap };

    #[tactic(auto, unfolding(mib_model::specs::Sameness::same_cells))]
    fn is_same(&self, other: &CapRow) -> bool {
        self == other
    }
}

impl Same for TxfRow {
    ghost use Rattle.mib_model.specs.SameRows.{same_txf};
    ghost use Rattle.row_sameness.specs.Equal.{equal-txf};

    ghost same = { same_txf };

    ghost equates = { equal-txf };

    #[tactic(auto, unfolding(mib_model::specs::Sameness::same_cells))]
    fn is_same(&self, other: &TxfRow) -> bool {
        self == other
    }
}

impl Same for TxpRow {
    ghost use Rattle.mib_model.specs.SameRows.{same_txp};
    ghost use Rattle.row_sameness.specs.Equal.{equal-txp};

    ghost same = { same_txp };

    ghost equates = { equal-txp };

    #[tactic(auto, unfolding(mib_model::specs::Sameness::same_cells))]
    fn is_same(&self, other: &TxpRow) -> bool {
        self == other
    }
}

impl Same for McfRow {
    ghost use Rattle.mib_model.specs.SameRows.{same_mcf};
    ghost use Rattle.row_sameness.specs.Equal.{equal-mcf};

    ghost same = { same_mcf };

    ghost equates = { equal-mcf };

    #[tactic(auto, unfolding(mib_model::specs::Sameness::same_cells))]
    fn is_same(&self, other: &McfRow) -> bool {
        self == other
    }
}

impl Same for LgfRow {
    ghost use Rattle.mib_model.specs.SameRows.{same_lgf};
    ghost use Rattle.row_sameness.specs.Equal.{equal-lgf};

    ghost same = { same_lgf };

    ghost equates = { equal-lgf };

    #[tactic(auto, unfolding(mib_model::specs::Sameness::same_cells))]
    fn is_same(&self, other: &LgfRow) -> bool {
        self == other
    }
}

impl Same for OcfRow {
    ghost use Rattle.mib_model.specs.SameRows.{same_ocf};
    ghost use Rattle.row_sameness.specs.Equal.{equal-ocf};

    ghost same = { same_ocf };

    ghost equates = { equal-ocf };

    #[tactic(auto, unfolding(mib_model::specs::Sameness::same_cells))]
    fn is_same(&self, other: &OcfRow) -> bool {
        self == other
    }
}

impl Same for OcpRow {
    ghost use Rattle.mib_model.specs.SameRows.{same_ocp};
    ghost use Rattle.row_sameness.specs.Equal.{equal-ocp};

    ghost same = { same_ocp };

    ghost equates = { equal-ocp };

    #[tactic(auto, unfolding(mib_model::specs::Sameness::same_cells))]
    fn is_same(&self, other: &OcpRow) -> bool {
        self == other
    }
}
