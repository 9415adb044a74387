ghost use Rattle.run_laws.specs.OneEdition.{OneEditionIsLegal, OneEditionPrints};

/// A run with one edition gives its packets the numbers from 1 on in edition 1, by a history of the register.
pub fn one_edition()
    ensures prints { OneEditionPrints }
    ensures legal { OneEditionIsLegal }
{}
