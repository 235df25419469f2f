//! The unfolder of a specification.
ghost use Rattle.std.specs.Prelude.{◌≡◌, IfOk};
ghost use Rattle.mast_join.specs.Extensions.{unfolding_by};

use mast_canon::Spec;
use mast_terms::NoMemory;
use mast_unfold::Unfolder;
use std::alloc::Global;

/// The unfolder of a specification, which extensions are made by. Its index of maps is made here, so one is enough for a run.
pub fn unfolder_of<'a>(alloc: Global, spec: &'a Spec) -> Result<Unfolder<'a>, NoMemory>
    ensures { IfOk result (λ unfolder. unfolder ≡ unfolding_by spec.now) }
{
    let maps = spec.maps.as_slice();
    let tables = spec.tables.as_slice();
    Unfolder::new(alloc, &spec.normal, &spec.vocab, maps, tables)
}
