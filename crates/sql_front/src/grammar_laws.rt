//! Consequences of the grammar. The function does nothing: its contract is a law.

ghost use Rattle.sql_front.specs.Laws.{SpellsOne};

/// No list of tokens spells two statements.
pub fn tokens_spell_one_statement()
    ensures { SpellsOne }
{}
