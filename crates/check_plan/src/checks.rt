ghost use Rattle.std.specs.Prelude.{◌≡◌, ℤ, Option, option_map, IfOk, IsTrue};
ghost use Rattle.mib_model.specs.Checks as Spec;
ghost use Rattle.mib_model.specs.Kept.{Memory};
ghost use Rattle.mib_model.specs.declared.check.Class.TheVariants.{Nominal};
ghost use Rattle.check_plan.specs.Samples.{count_of, sample_of};

use crate::check_set::CheckSet;
use crate::condition::Holds;
use crate::sample::Sample;
use mib_model::{Class, Eng, OcfRow, OcpRow};
use std::alloc::{AllocError, Global};
use std::marker::Model;
use std::snapshot::Snapshot;

/// The check of a parameter and its limits, compiled. What is asked of it for each sample stands first. Contracts see the rows.
#[derive(Drop)]
pub struct Checks {
    inter: u8,
    nbchck: u8,
    set: CheckSet,
    ocf: Snapshot<OcfRow>,
    ocps: Snapshot<Vec<OcpRow>>,
}

impl Model for Checks {
    ghost use Rattle.check_plan.specs.CheckSets.{ArePartsOf};
    ghost use Rattle.check_plan.specs.Rows.{CheckRows};

    ghost Value = { CheckRows };

    ghost view = { λ checks. record { ocf = checks.ocf.value; ocps = checks.ocps.value.items } };

    ghost invariant = { λ checks. ArePartsOf checks.ocf.value checks.ocps.value.items checks.inter checks.nbchck checks.set };
}

impl Checks {
    /// Compiles a parameter's row of ocf and its rows of ocp by POS. An error is want of memory.
    pub fn compile(alloc: Global, ocf: &OcfRow, ocps: &[OcpRow]) -> Result<Checks, AllocError>
        ensures { IfOk result (λ checks. checks ≡ record { ocf = ocf.now; ocps = ocps.now }) }
    {
        let rows = Vec::from_slice(alloc, ocps)?;
        Ok(Checks {
            inter: ocf.inter,
            nbchck: ocf.nbchck,
            set: CheckSet::compile(alloc, &rows)?,
            ocf: Snapshot::of(ocf),
            ocps: Snapshot::of(&rows),
        })
    }

    /// A number made of limits: who asks for it early has them at hand when a sample is classed.
    pub fn touch(&self) -> usize {
        self.set.touch()
    }

    /// Which number of a value is checked: `U` is the raw one (SCOS-2000 Database Import ICD, ocf).
    pub fn inter(&self) -> u8
        ensures { result ≡ self.now.ocf.inter }
    {
        self.inter
    }

    /// How many samples out of limits in a row are told.
    pub fn nbchck(&self) -> u8
        ensures { result ≡ self.now.ocf.nbchck }
    {
        self.nbchck
    }

    /// The class of a sample, with the last checked number of the parameter and what is kept of raw numbers (SCOS-2000
    /// Database Import ICD, ocp; the order of the classes is this profile's). It takes no memory.
    pub fn class_of<K: Holds>(&self, sample: Sample, previous: Option<Eng>, kept: &K) -> Class
        ensures { result ≡ Spec.class_of self.now.ocps (sample_of sample.entry) (option_map count_of previous) (K.memory kept.now) }
    {
        self.set.class_of(sample, previous, kept)
    }

    /// Whether a sample is of class Nominal whatever is kept and whatever the last checked number was, as nearly all are.
    /// `false` says nothing.
    #[inline(always)]
    pub fn is_nominal(&self, sample: Sample) -> bool
        ensures { IsTrue result → (previous : Option ℤ) (memory : Memory) → Spec.class_of self.now.ocps (sample_of sample.entry) previous memory ≡ Nominal }
    {
        self.set.is_calm(sample)
    }
}
