//! Specifications.
ghost use Rattle.std.specs.Prelude.{◌≡◌, None};
ghost use Rattle.mast_tbox.specs.ConstraintForms.{HaveForm};
ghost use Rattle.mast_tbox.specs.Inclusions.{normal as normal_inclusions};
ghost use Rattle.mast_tbox.specs.Lists.{items};
ghost use Rattle.mast_tbox.specs.Restrictions.{IsRestrictionBreach};
ghost use Rattle.mast_tbox.specs.Vocabularies.{AxiomsInRange, ConstraintsInRange};
ghost use Rattle.mast_canon.specs.Conditions.{SplitInRange, SplitOverTables, HasNumbers, TablesHaveNumbers};

use mast_mapping::SplitMap;
use mast_tables::TableDecl;
use mast_tbox::{Constraint, Lined, NormalTBox, TBox};
use mast_terms::{List, Vocabulary};

/// A specification: axioms, constraints, declared tables and split mappings, over the names of one vocabulary. Each
/// keeps the conditions that its ghost fields state.
#[derive(Drop)]
pub struct Spec {
    /// All names and constants.
    pub vocab: Vocabulary,
    /// The axioms.
    pub tbox: TBox,
    /// The normal inclusions of the axioms.
    pub normal: NormalTBox,
    /// The constraints, each with its line.
    pub constraints: List<Lined<Constraint>>,
    /// The declared tables.
    pub tables: List<TableDecl>,
    /// The split mappings.
    pub maps: List<SplitMap>,
    pub ghost axioms_in_range: { ∥ AxiomsInRange vocab tbox.inclusions tbox.negatives tbox.functional ∥₁ },
    pub ghost constraints_in_range: { ∥ ConstraintsInRange vocab constraints ∥₁ },
    pub ghost maps_in_range: { ∥ SplitInRange vocab maps ∥₁ },
    pub ghost formed: { ∥ HaveForm constraints ∥₁ },
    pub ghost over_tables: { ∥ SplitOverTables tables maps ∥₁ },
    pub ghost is_normal: { normal ≡ normal_inclusions (items tbox.inclusions) },
    pub ghost unbreached: { ∥ IsRestrictionBreach tbox.inclusions tbox.functional constraints None ∥₁ },
    pub ghost tables_numbered: { ∥ TablesHaveNumbers tables ∥₁ },
    pub ghost constraints_numbered: { HasNumbers constraints },
    pub ghost maps_numbered: { HasNumbers maps },
}
