//! Words: which two are one word, and which are reserved.

ghost use Rattle.std.specs.Prelude.{◌≡◌};
ghost use Rattle.std.specs.List.{list_any};
ghost use Rattle.std.specs.Str.{bytes_eq};
ghost use Rattle.sql_statements.specs.Words as words;
ghost use Rattle.sql_statements.specs.Words.{folded};

/// The words of 2 or 3 letters that are no names.
static OF_TWO_OR_THREE: [&str; 13] = [
    "AND", "AS", "AT", "END", "FOR", "KEY", "NOT", "OF", "ON", "OR", "ROW", "SET", "TO",
];

/// The words of 4 or 5 letters that are no names.
static OF_FOUR_OR_FIVE: [&str; 11] = [
    "DATE", "FROM", "INNER", "INTO", "JOIN", "NULL", "START", "TABLE", "UNION", "WHERE", "WITH",
];

/// The words of 6 letters that are no names.
static OF_SIX: [&str; 11] = [
    "ALWAYS", "CREATE", "DELETE", "EQUALS", "EXCEPT", "INSERT", "PERIOD", "SELECT", "SYSTEM",
    "UPDATE", "VALUES",
];

/// The words of 7 or 8 letters that are no names.
static OF_SEVEN_OR_EIGHT: [&str; 13] = [
    "BETWEEN", "CONTAINS", "DISTINCT", "FOREIGN", "INTEGER", "OVERLAPS", "PORTION", "PRECEDES",
    "PRIMARY", "SUCCEEDS", "VARCHAR", "VARYING", "WITHOUT",
];

/// The words of 9 to 11 letters that are no names.
static OF_NINE_TO_ELEVEN: [&str; 9] = [
    "CHARACTER",
    "GENERATED",
    "IMMEDIATELY",
    "INTERSECT",
    "REFERENCES",
    "SYSTEM_TIME",
    "TIMESTAMP",
    "VALIDTIME",
    "VERSIONING",
];

/// Whether the two are one word: case does not matter.
pub fn is_same_word(text: &str, want: &str) -> bool
    ensures { result ≡ bytes_eq (folded text.now) (folded want.now) }
{
    // (most are of another length, which is seen without a call)
    text.len() == want.len() && text.eq_ignore_ascii_case(want)
}

/// Whether it is among the words.
fn is_among(text: &str, words: &[&str]) -> bool
    ensures { result ≡ list_any (λ word. bytes_eq (folded text.now) (folded word.now)) words.now }
{
    words.iter().any(|word| is_same_word(text, word))
}

/// Whether this word, in any case, is reserved, so that it is no name. Only words of about its
/// length are looked at.
pub(crate) fn is_reserved(text: &str) -> bool
    ensures { result ≡ words.is_reserved text.now }
{
    match text.len() {
        2..=3 => is_among(text, OF_TWO_OR_THREE.as_slice()),
        4..=5 => is_among(text, OF_FOUR_OR_FIVE.as_slice()),
        6 => is_among(text, OF_SIX.as_slice()),
        7..=8 => is_among(text, OF_SEVEN_OR_EIGHT.as_slice()),
        9..=11 => is_among(text, OF_NINE_TO_ELEVEN.as_slice()),
        _ => false,
    }
}
