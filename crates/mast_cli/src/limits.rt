//! The limits: the greatest numbers that a run accepts. The definitions cite these constants.
ghost use Rattle.std.specs.Prelude.{◌≡◌, ◌<◌};
ghost use Rattle.mast_cli.specs.Limits as spec;

use mast_tree::DocName;

/// The greatest number of bytes of an ontology.
pub const ONTOLOGY_BYTES: u64 = 33_554_432;

/// The greatest number of bytes of a constraint document.
pub const CONSTRAINTS_BYTES: u64 = 4_194_304;

/// The greatest number of bytes of a mapping document.
pub const MAPPING_BYTES: u64 = 16_777_216;

/// The greatest number of bytes of all table files together.
pub const TABLE_BYTES: u64 = 134_217_728;

/// The greatest number of rows of all tables together.
pub const ROWS: u32 = 2_000_000;

/// The greatest number of bytes of a document.
pub fn document_bytes(document: DocName) -> u64
    ensures value { result ≡ spec.document_bytes document }
    ensures small { result < 4294967295 }
{
    match document {
        DocName::Ontology => ONTOLOGY_BYTES,
        DocName::Constraints => CONSTRAINTS_BYTES,
        DocName::Mappings => MAPPING_BYTES,
    }
}
