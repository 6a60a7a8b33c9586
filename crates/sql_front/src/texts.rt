//! The values of texts.

ghost use Rattle.std.specs.Prelude.{◌≡◌, ◌++◌, ◌<◌, length, IfOk, IfSome};
ghost use Rattle.sql_front.specs.Quoting.{continued};
ghost use Rattle.sql_front.specs.LiteralValues.{text_value, unquoted};

use period_core::{Memory, Text};
use std::alloc::Global;

/// The text before the next quote, and the text after it if the quote is doubled.
fn part(rest: &str) -> (&str, Option<&str>)
    ensures value { unquoted rest.now ≡ result.0.now ++ continued result.1 }
    ensures shorter { IfSome result.1 (λ more. length more.now < length rest.now) }
{
    let Some((before, after)) = rest.split_once('\'') else {
        return (rest, None);
    };
    let Some((between, more)) = after.split_once('\'') else {
        return (before, None);
    };
    if between.is_empty() {
        return (before, Some(more));
    }
    (before, None)
}

fn unquoted_text(alloc: Global, rest: &str) -> Result<Text, Memory>
    ensures { IfOk result (λ text. text ≡ unquoted rest.now) }
{
    let mut value = String::new(alloc);
    let (before, mut next) = part(rest);
    value.push_str(before)?;
    'parts: while let Some(more) = next {
        let (before, after) = part(more);
        value.push('\'')?;
        value.push_str(before)?;
        next = after;
    }
    Ok(Text::new(value))
}

/// The value of a text token.
pub fn text_of(alloc: Global, token: &str) -> Result<Text, Memory>
    ensures { IfOk result (λ text. text ≡ text_value token.now) }
{
    match token.split_once('\'') {
        Some((_, rest)) => unquoted_text(alloc, rest),
        None => Ok(Text::new(String::new(alloc))),
    }
}
