ghost use Rattle.std.specs.Prelude.{Bool, List};
ghost use Rattle.mib_model.specs.Database.{Database};
ghost use Rattle.mib_model.specs.declared.plan.Plan.{Plan};

/// A value that stands for tables of a database and for plans that were compiled from them.
pub trait Rows {
    /// The tables of a value.
    ghost tables: { Self → Database };

    /// The plans of a value: what each compiled part of it depends on, in their order.
    ghost plans: { Self → List Plan };
}

/// A value that was made for the tables of a database, as what a packet of theirs gives.
pub trait MadeFor {
    /// Whether a value was made for these tables.
    ghost made_for: { Database → Self → Bool };
}
