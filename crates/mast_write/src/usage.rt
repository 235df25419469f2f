//! The usage text.
ghost use Rattle.std.specs.Prelude.{◌≡◌, IfOk};
ghost use Rattle.mast_write.specs.Usage.{usage};

use mast_terms::NoMemory;
use std::alloc::Global;

/// The usage text: a line for each command of the finished program.
pub fn usage_text(alloc: Global) -> Result<Vec<u8>, NoMemory>
    ensures { IfOk result (λ text. text.items ≡ usage) }
{
    let text = "\
usage: mastro facts MAPPINGS
       mastro check [--workers N] ONTOLOGY CONSTRAINTS MAPPINGS
       mastro answer [--workers N] ONTOLOGY CONSTRAINTS MAPPINGS QUERY [QUERY]
       mastro make N
       mastro tolerant [--workers N] ONTOLOGY CONSTRAINTS MAPPINGS QUERY [QUERY]
       mastro explain [--workers N] [--all] ONTOLOGY CONSTRAINTS MAPPINGS QUERY
       mastro audit [--workers N] ONTOLOGY CONSTRAINTS MAPPINGS RULES
       mastro desk ONTOLOGY CONSTRAINTS MAPPINGS SCRIPT [SCRIPT]
";
    Ok(text.as_bytes().to_vec(alloc)?)
}
