//! Worlds: interpretations of the names whose elements are terms, seen by contracts alone.
ghost use Rattle.std.specs.Prelude.{ℕ, Option};
ghost use Rattle.mast_terms.specs.declared.name.Name.{Name};
ghost use Rattle.mast_terms.specs.declared.term.Term.{Term};
ghost use Rattle.mast_terms.specs.declared.value.Kind.{Kind};
ghost use Rattle.mast_canon.specs.Elements.{Element};

/// An interpretation of classes, roles and attributes whose elements are terms, whichever relations and choices it has.
pub trait World {
    // The element is in the class.
    ghost class: { Self → Name → Element → Type 0 };

    // The two elements are a pair of the role.
    ghost role: { Self → Name → Element → Element → Type 0 };

    // The second element is a value of the attribute for the first.
    ghost attr: { Self → Name → Element → Element → Type 0 };

    // The kind of an element that is a value.
    ghost kind: { Self → Element → Option Kind };

    // The element that a named term names.
    ghost named: { Self → Term → Element };

    // The filler of the number of an existential inclusion for an element.
    ghost fill: { Self → ℕ → Element → Element };
}
