//! The words that ask for a copy of a store.

ghost use Rattle.std.specs.Prelude.{◌≡◌, map, MatchOption, None, Some};
ghost use Rattle.std.specs.String.{string_bytes};
ghost use Rattle.command_line.specs.Backup.{backup_by, backup_in, is_name};

/// A copy of a store that a command line of the second program asks for.
#[derive(Clone, Copy)]
pub struct Backup<'a> {
    /// The name of the store's file.
    pub store: &'a str,
    /// The name of the file that the copy becomes.
    pub file: &'a str,
}

// Whether a word is a name: whether it begins with no hyphen.
fn is_name(word: &str) -> bool
    ensures { result ≡ is_name word.now }
{
    !word.as_bytes().starts_with(b"-")
}

// The copy that the words after the program's name ask for.
fn backup_by<'a>(first: &'a str, second: &'a str, third: &'a str) -> Option<Backup<'a>>
    ensures { MatchOption result (backup_by first.now second.now third.now ≡ None)
        (λ asked. backup_by first.now second.now third.now
        ≡ Some (asked.store.now, asked.file.now)) }
{
    if second == "--backup" && is_name(first) && is_name(third) {
        return Some(Backup {
            store: first,
            file: third,
        });
    }
    if first == "--backup" && is_name(second) && is_name(third) {
        return Some(Backup {
            store: third,
            file: second,
        });
    }
    None
}

/// The copy that the words of a command line ask for, the first of which is the program's name:
/// `STORE --backup FILE`, or with the store after it. Other words ask for none.
pub fn backup_of(words: &[String]) -> Option<Backup<'_>>
    ensures { MatchOption result (backup_in (map string_bytes words.now) ≡ None)
        (λ asked. backup_in (map string_bytes words.now)
        ≡ Some (asked.store.now, asked.file.now)) }
{
    match words {
        [_, first, second, third] => backup_by(first.as_str(), second.as_str(), third.as_str()),
        _ => None,
    }
}
