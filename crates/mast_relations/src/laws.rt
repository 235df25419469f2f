//! What slices mean, as a law that no code calls.
ghost use Rattle.std.specs.Prelude.{ℕ, ◌↔◌, ◌<◌, List, length};
ghost use Rattle.mast_relations.specs.declared.query.Conjunction.{Conjunction};
ghost use Rattle.mast_relations.specs.Matches.{IsAnswer, Rows, relation_of};
ghost use Rattle.mast_relations.specs.Slices.{AreCuts, IsAnswerInOne, pattern_at};

/// However the rows of the relation of one of a query's patterns are cut into slices, the answers of the slices together are the answers.
pub fn slices_give_answers()
    ensures { (relations : List Rows) (query : Conjunction) (start : ℕ) → start < length query.patterns
        → (cuts : List ℕ) → AreCuts 0 cuts (length (relation_of relations (pattern_at query start)).list)
        → (tuple : List ℕ) → IsAnswer relations query tuple
        ↔ IsAnswerInOne relations query start 0 cuts (length (relation_of relations (pattern_at query start)).list) tuple }
{}
