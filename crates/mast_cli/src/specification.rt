//! The stages of a specification: its documents one after the other, the restrictions, and the limits of its violation
//! queries.
ghost use Rattle.std.specs.Prelude.{◌≡◌, IfOk};
ghost use Rattle.mast_cli.specs.inside.Causes.{PartHasCause};
ghost use Rattle.mast_cli.specs.inside.Specifying.{AreFitRest, AreOne, TellsDocuments, TellsLimits, TellsRest};
ghost use Rattle.mast_cli.specs.inside.Specifying.{TellsLimited, TellsRestricted, TellsSpecification, documents_of};
ghost use Rattle.mast_check.specs.Limits.{MeetsNoLimit};
ghost use Rattle.mast_cli.specs.inside.Telling.{IfRead, WhenTold};
ghost use Rattle.mast_cli.specs.stage.Closures.{limit_event};
ghost use Rattle.mast_cli.specs.stage.Restrictions.{files_of};

use crate::document::{judge_constraints, judge_mappings, judge_ontology};
use crate::judged::{Part, ended_at};
use mast_canon::Spec;
use mast_check::{CheckLimit, violations_fit};
use mast_files::Files;
use mast_mapping::Mappings;
use mast_tbox::{Constraints, Ontology};
use mast_terms::{NameKind, NoMemory, Stop, Vocabulary};
use mast_write::Refusal;
use std::alloc::Global;

/// The documents of a specification, each of which was read over the names and constants of those before.
#[derive(Drop)]
pub struct ReadDocuments {
    ontology: Ontology,
    constraints: Constraints,
    mappings: Mappings,
}

// The specification of the documents in these files.
fn judge_specification<F: Files>(
    alloc: Global,
    ontology: &str,
    constraints: &str,
    mappings: &str,
    files: &mut F,
) -> Result<Part<Spec>, NoMemory>
    ensures told { IfOk result (WhenTold (F.contents files.old)
        (TellsSpecification (files_of ontology.now constraints.now mappings.now) (F.reading files.new))) }
    ensures kept { F.contents files.new ≡ F.contents files.old }
    ensures cause { IfOk result (PartHasCause (F.faults files.old) (F.faults files.new) (F.reading files.new)) }
{
    match judge_documents(alloc, ontology, constraints, mappings, files)? {
        Part::Read(read) => restrict(alloc, read),
        Part::Ended(judged) => Ok(Part::Ended(judged)),
    }
}

/// The specification of the documents in these files, whose violation queries are within the limits.
pub fn judge_limited<F: Files>(
    alloc: Global,
    ontology: &str,
    constraints: &str,
    mappings: &str,
    files: &mut F,
) -> Result<Part<Spec>, NoMemory>
    ensures told { IfOk result (WhenTold (F.contents files.old)
        (TellsLimited (files_of ontology.now constraints.now mappings.now) (F.reading files.new))) }
    ensures limits { IfOk result (IfRead MeetsNoLimit) }
    ensures kept { F.contents files.new ≡ F.contents files.old }
    ensures cause { IfOk result (PartHasCause (F.faults files.old) (F.faults files.new) (F.reading files.new)) }
{
    match judge_specification(alloc, ontology, constraints, mappings, files)? {
        Part::Read(spec) => within_limits(alloc, spec),
        Part::Ended(judged) => Ok(Part::Ended(judged)),
    }
}

// The same specification, if its violation queries are within the limits.
fn within_limits(alloc: Global, spec: Spec) -> Result<Part<Spec>, NoMemory>
    ensures { IfOk result (TellsLimits spec) }
{
    match violations_fit(alloc, &spec) {
        Ok(()) => Ok(Part::Read(spec)),
        Err(Stop::Named(limit)) => ended_at(alloc, refusal_of(limit)),
        Err(Stop::NoMemory) => Err(NoMemory),
    }
}

// The refusal of a limit.
fn refusal_of(limit: CheckLimit) -> Refusal
    ensures { result ≡ limit_event limit }
{
    match limit {
        CheckLimit::Violations => Refusal::Violations,
        CheckLimit::Closure { origin, .. } => Refusal::ViolationClosure {
            doc: origin.doc,
            line: origin.line,
        },
    }
}

// The specification of documents, or their first breach of a restriction.
#[tactic(auto, unfolding(crate::specs::stage::Restrictions::IsRestricted))]
fn restrict(alloc: Global, read: ReadDocuments) -> Result<Part<Spec>, NoMemory>
    requires { AreOne read }
    ensures { IfOk result (TellsRestricted (documents_of read)) }
{
    match Spec::new(alloc, read.ontology, read.constraints, read.mappings) {
        Ok(spec) => Ok(Part::Read(spec)),
        Err(Stop::Named(breach)) => ended_at(alloc, Refusal::Restriction { breach }),
        Err(Stop::NoMemory) => Err(NoMemory),
    }
}

// The documents in these files.
fn judge_documents<F: Files>(
    alloc: Global,
    ontology: &str,
    constraints: &str,
    mappings: &str,
    files: &mut F,
) -> Result<Part<ReadDocuments>, NoMemory>
    ensures told { IfOk result (WhenTold (F.contents files.old)
        (TellsDocuments (files_of ontology.now constraints.now mappings.now) (F.reading files.new))) }
    ensures one { IfOk result (IfRead AreOne) }
    ensures kept { F.contents files.new ≡ F.contents files.old }
    ensures cause { IfOk result (PartHasCause (F.faults files.old) (F.faults files.new) (F.reading files.new)) }
{
    let ontology = match judge_ontology(alloc, ontology, files)? {
        Part::Read(ontology) => ontology,
        Part::Ended(judged) => return Ok(Part::Ended(judged)),
    };
    let vocab = ontology.vocab.copy(alloc)?;
    match judge_rest(alloc, vocab, constraints, mappings, files)? {
        Part::Read(rest) => Ok(Part::Read(ReadDocuments {
            ontology,
            constraints: rest.0,
            mappings: rest.1,
        })),
        Part::Ended(judged) => Ok(Part::Ended(judged)),
    }
}

// The constraints and then the mappings, each over the names and constants of the documents before.
fn judge_rest<F: Files>(
    alloc: Global,
    vocab: Vocabulary,
    constraints: &str,
    mappings: &str,
    files: &mut F,
) -> Result<Part<(Constraints, Mappings)>, NoMemory>
    ensures told { IfOk result (WhenTold (F.contents files.old)
        (TellsRest vocab constraints.now mappings.now (F.reading files.new))) }
    ensures fit { IfOk result (IfRead (AreFitRest vocab)) }
    ensures kept { F.contents files.new ≡ F.contents files.old }
    ensures cause { IfOk result (PartHasCause (F.faults files.old) (F.faults files.new) (F.reading files.new)) }
{
    // The names of a vocabulary are lawful, so a document has one reading over them.
    let _ = vocab.len(NameKind::Class);

    let constraints = match judge_constraints(alloc, constraints, vocab, files)? {
        Part::Read(constraints) => constraints,
        Part::Ended(judged) => return Ok(Part::Ended(judged)),
    };
    let vocab = constraints.vocab.copy(alloc)?;
    match judge_mappings(alloc, mappings, vocab, files)? {
        Part::Read(mappings) => Ok(Part::Read((constraints, mappings))),
        Part::Ended(judged) => Ok(Part::Ended(judged)),
    }
}
