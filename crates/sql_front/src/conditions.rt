//! Conditions over tests of any kind, read from the front.

ghost use Rattle.std.specs.Prelude.{◌≡◌, ◌≤◌, ◌∷◌, List, Option, Some, length, map, IfOk};
ghost use Rattle.std.specs.Option.{option_map};
ghost use Rattle.sql_front.specs.reading.ConditionReaders.{condition_read, conjunction_read};
ghost use Rattle.sql_front.specs.reading.ConditionReaders.{factor_read, inner_read, test_read};
ghost use Rattle.sql_front.specs.reading.ConditionReaders.{where_read};
ghost use Rattle.sql_front.specs.reading.Gives.{Gives};
ghost use Rattle.sql_front.specs.Builders.{all_of, any_of};
ghost use Rattle.sql_statements.specs.Lexemes.{Lexeme, lexemes};
ghost use Rattle.sql_statements.specs.Plain.{plain_condition};
ghost use Rattle.sql_statements.specs.Trees.{test};

use crate::read_error::ReadError;
use crate::terminal::{Terminal, accept, expect, starts};
use sql_statements::token::Token;
use sql_statements::tree::Tree;
use std::alloc::Global;

/// A test in a condition.
pub trait Test: Sized + Drop {
    ghost reader: { List Lexeme → Option (Self × List Lexeme) };

    /// The first, and the tokens after it.
    fn read<'a, 'b>(
        alloc: Global,
        tokens: &'b [Token<'a>],
    ) -> Result<(Self, &'b [Token<'a>]), ReadError>
        ensures value { Gives (λ x. (x.0, lexemes x.1.now)) result (reader (lexemes tokens.now)) }
        ensures rest { IfOk result (λ x. length x.1.now ≤ length tokens.now) };
}

/// The chain of OR of the first part and of the rest.
#[tactic(auto, using(crate::proofs::ConditionViews::or_view))]
fn or_chain<T: Drop>(
    alloc: Global,
    first: Tree<T>,
    others: Vec<Tree<T>>,
) -> Result<Tree<T>, ReadError>
    ensures { Gives plain_condition result
        (Some (any_of (plain_condition first ∷ map plain_condition others.items))) }
{
    Ok(Tree::Or(Box::new(alloc, first)?, others))
}

/// The chain of AND of the first part and of the rest.
#[tactic(auto, using(crate::proofs::ConditionViews::and_view))]
fn and_chain<T: Drop>(
    alloc: Global,
    first: Tree<T>,
    others: Vec<Tree<T>>,
) -> Result<Tree<T>, ReadError>
    ensures { Gives plain_condition result
        (Some (all_of (plain_condition first ∷ map plain_condition others.items))) }
{
    Ok(Tree::And(Box::new(alloc, first)?, others))
}

/// The condition that is one test.
#[tactic(auto, using(crate::proofs::ConditionViews::test_view))]
fn one_test<T: Drop>(leaf: T) -> Tree<T>
    ensures { plain_condition result ≡ test leaf }
{
    Tree::Test(leaf)
}

/// A condition, and the tokens after it. At most `depth` parentheses open in it.
#[cycle(conditions)]
#[tactic(auto, unfolding(crate::specs::reading::ConditionReaders::condition_read))]
pub fn read_condition<'a, 'b, T: Test>(
    alloc: Global,
    depth: usize,
    tokens: &'b [Token<'a>],
) -> Result<(Tree<T>, &'b [Token<'a>]), ReadError>
    ensures value { Gives (λ x. (plain_condition x.0, lexemes x.1.now)) result
        (condition_read T.reader depth (lexemes tokens.now)) }
    ensures rest { IfOk result (λ x. length x.1.now ≤ length tokens.now) }
{
    let mut others = Vec::new(alloc);
    let (first, mut rest) = read_conjunction::<T>(alloc, depth, tokens)?;
    'others: while starts(rest, Terminal::Keyword("OR")) {
        let (next, after) = read_conjunction::<T>(
            alloc,
            depth,
            expect(rest, Terminal::Keyword("OR"))?,
        )?;
        others.push(next)?;
        rest = after;
    }
    Ok((or_chain(alloc, first, others)?, rest))
}

#[cycle(conditions)]
#[tactic(auto, unfolding(crate::specs::reading::ConditionReaders::conjunction_read))]
fn read_conjunction<'a, 'b, T: Test>(
    alloc: Global,
    depth: usize,
    tokens: &'b [Token<'a>],
) -> Result<(Tree<T>, &'b [Token<'a>]), ReadError>
    ensures value { Gives (λ x. (plain_condition x.0, lexemes x.1.now)) result
        (conjunction_read T.reader depth (lexemes tokens.now)) }
    ensures rest { IfOk result (λ x. length x.1.now ≤ length tokens.now) }
{
    let mut others = Vec::new(alloc);
    let (first, mut rest) = read_factor::<T>(alloc, depth, tokens)?;
    'others: while starts(rest, Terminal::Keyword("AND")) {
        let (next, after) = read_factor::<T>(
            alloc,
            depth,
            expect(rest, Terminal::Keyword("AND"))?,
        )?;
        others.push(next)?;
        rest = after;
    }
    Ok((and_chain(alloc, first, others)?, rest))
}

#[cycle(conditions)]
#[tactic(auto, unfolding(crate::specs::reading::ConditionReaders::factor_read))]
fn read_factor<'a, 'b, T: Test>(
    alloc: Global,
    depth: usize,
    tokens: &'b [Token<'a>],
) -> Result<(Tree<T>, &'b [Token<'a>]), ReadError>
    ensures value { Gives (λ x. (plain_condition x.0, lexemes x.1.now)) result
        (factor_read T.reader depth (lexemes tokens.now)) }
    ensures rest { IfOk result (λ x. length x.1.now ≤ length tokens.now) }
{
    let Some(negated) = accept(tokens, Terminal::Keyword("NOT")) else {
        return read_test::<T>(alloc, depth, tokens);
    };
    let (inner, rest) = read_test::<T>(alloc, depth, negated)?;
    Ok((Tree::Not(Box::new(alloc, inner)?), rest))
}

#[cycle(conditions)]
#[tactic(auto, unfolding(crate::specs::reading::ConditionReaders::test_read))]
fn read_test<'a, 'b, T: Test>(
    alloc: Global,
    depth: usize,
    tokens: &'b [Token<'a>],
) -> Result<(Tree<T>, &'b [Token<'a>]), ReadError>
    ensures value { Gives (λ x. (plain_condition x.0, lexemes x.1.now)) result
        (test_read T.reader depth (lexemes tokens.now)) }
    ensures rest { IfOk result (λ x. length x.1.now ≤ length tokens.now) }
{
    let Some(inside) = accept(tokens, Terminal::Symbol("(")) else {
        let (test, rest) = T::read(alloc, tokens)?;
        return Ok((one_test(test), rest));
    };
    let (inner, rest) = read_nested::<T>(alloc, depth, inside)?;
    match expect(rest, Terminal::Symbol(")")) {
        Ok(rest) => Ok((inner, rest)),
        Err(error) => {
            // By a call: the proof of an implicit drop walks through the whole of a condition.
            drop(inner);
            Err(error)
        }
    }
}

/// A condition in parentheses.
#[cycle(conditions)]
#[tactic(auto, using(crate::proofs::ConditionViews::inner_views))]
fn read_nested<'a, 'b, T: Test>(
    alloc: Global,
    depth: usize,
    tokens: &'b [Token<'a>],
) -> Result<(Tree<T>, &'b [Token<'a>]), ReadError>
    ensures value { Gives (λ x. (plain_condition x.0, lexemes x.1.now)) result
        (inner_read T.reader depth (lexemes tokens.now)) }
    ensures rest { IfOk result (λ x. length x.1.now ≤ length tokens.now) }
{
    if depth == 0 {
        return Err(ReadError::Syntax);
    }
    read_condition::<T>(alloc, depth - 1, tokens)
}

/// WHERE with a condition or nothing, and the tokens after it.
#[tactic(auto, unfolding(crate::specs::reading::ConditionReaders::where_read))]
pub fn read_where<'a, 'b, T: Test>(
    alloc: Global,
    depth: usize,
    tokens: &'b [Token<'a>],
) -> Result<(Option<Tree<T>>, &'b [Token<'a>]), ReadError>
    ensures value { Gives (λ x. (option_map plain_condition x.0, lexemes x.1.now)) result
        (where_read T.reader depth (lexemes tokens.now)) }
    ensures rest { IfOk result (λ x. length x.1.now ≤ length tokens.now) }
{
    let Some(rest) = accept(tokens, Terminal::Keyword("WHERE")) else {
        return Ok((None, tokens));
    };
    let (condition, rest) = read_condition::<T>(alloc, depth, rest)?;
    Ok((Some(condition), rest))
}
