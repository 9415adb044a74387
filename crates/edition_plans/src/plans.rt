ghost use Rattle.std.specs.Prelude.{◌≡◌, ◌==◌, option_and_then};
ghost use Rattle.std.specs.List.{find};
ghost use Rattle.std.specs.Option.{option_copied};
ghost use Rattle.edition_plans.specs.Layouts.{layout_of, HasPlaces};
ghost use Rattle.edition_plans.specs.Params.{param_slices};
ghost use Rattle.mib_model.specs.Soundness.{IsSound};

use ident_plan::Ident;
use layout_plan::Layout;
use mib_model::Text;
use param_plan::Params;
use struct_plan::Structures;

/// The plans of a sound database, whose structures and deduced parameters it has too.
pub trait Plans: Structures {
    /// The plan of identification.
    fn ident(&self) -> &Ident
        ensures rows { result.now ≡ record { pids = (Self.tables self.now).pid; pics = (Self.tables self.now).pic } }
        ensures sound { IsSound (Self.tables self.now) };

    /// The layout of a SPID, none exactly where no packet of that SPID has a fixed layout.
    fn layout(&self, spid: u32) -> Option<&Layout>
        ensures rows { option_copied result ≡ layout_of (Self.tables self.now) spid }
        ensures places { HasPlaces (Self.tables self.now) spid (option_copied result) };

    /// The plans of all measured parameters that aren't deduced, by name.
    fn params(&self) -> &Params
        ensures slices { result.now ≡ param_slices (Self.tables self.now) }
        ensures sound { IsSound (Self.tables self.now) };

    /// The name of the packets of a SPID, where they have one.
    fn title(&self, spid: u32) -> Option<&Text>
        ensures { option_copied result ≡ option_and_then (λ row. row.name) (find (λ row. row.spid == spid) (Self.tables self.now).tpcf) };
}
