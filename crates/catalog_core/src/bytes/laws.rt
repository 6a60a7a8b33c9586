//! The law of the bytes of definitions. The function does nothing: its contract is the law, whose
//! statement is in `specs/`.

ghost use Rattle.catalog_core.specs.bytes.DefinitionLaws.{DefinitionReadsBack};

/// Definitions with the same bytes are the same definition.
pub fn definition_reads_back()
    ensures { DefinitionReadsBack }
{}
