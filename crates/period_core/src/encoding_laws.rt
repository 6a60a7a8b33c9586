//! The laws of the encoding. The definitions are in `specs/`; each function here does nothing,
//! and its contract is a law over them.

ghost use Rattle.period_core.specs.EncodingLaws.{EncodingKeepsOrder, EncodingReadsBack};

/// The bytes of two lists of values are in the order of the lists.
pub fn encoding_keeps_order()
    ensures { EncodingKeepsOrder }
{}

/// Lists of values with the same bytes are the same list.
pub fn encoding_reads_back()
    ensures { EncodingReadsBack }
{}
