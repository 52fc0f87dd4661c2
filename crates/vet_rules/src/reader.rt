//! Reads the expression of a text, and the rule of a line.

ghost use Rattle.std.specs.Prelude.{◌≡◌, ℕ, ◌≤◌, List, Option, length, drop, IfOk, IfErr, Ok, map};
ghost use Rattle.std.specs.Prelude.{option_map, string_bytes};
ghost use Rattle.vet_rules.specs.Trees.{Tree, tree_of};
ghost use Rattle.vet_rules.specs.Grammar.{max_depth};
ghost use Rattle.vet_rules.specs.Answers.{Gives, IsStop, IsSyntax};
ghost use Rattle.vet_rules.specs.Scanning.{placed};
ghost use Rattle.vet_rules.specs.Heading.{after_colon, bare_head, quoted_head, head_at};
ghost use Rattle.vet_rules.specs.Rules.{Says, IsLine, after_spaces, rule_of};
ghost use Rattle.vet_rules.specs.Faults.{first_left, left_behind, error_in_bytes, IsFault};
ghost use Rattle.vet_rules.specs.Faults.{IsLineFault};

use crate::error::Expected;
use crate::expression::Expression;
use crate::lexer::{Class, is_at_end, is_quoted, lex, run_len, shown, stop, title_of, token};
use crate::parser::parse;
use crate::rule::Rule;
use crate::stop::{ReadError, Stop};
use crate::token::Token;
use std::alloc::Global;

fn first_of(tokens: &[Token]) -> usize
    ensures { result ≡ first_left (map placed tokens.now) }
{
    match tokens {
        [] => 0,
        [first, ..] => first.left,
    }
}

fn behind(tokens: &[Token], count: usize) -> &[Token]
    requires { count ≤ length tokens.now }
    ensures { result.now ≡ drop count tokens.now }
{
    &tokens[count..]
}

// How many bytes are left where this many tokens are.
fn bytes_left(tokens: &[Token], left: usize) -> usize
    ensures { result ≡ left_behind (map placed tokens.now) left }
{
    first_of(behind(tokens, tokens.len().saturating_sub(left)))
}

fn in_bytes(error: ReadError, tokens: &[Token]) -> ReadError
    ensures { result ≡ error_in_bytes (map placed tokens.now) error }
{
    match error {
        ReadError::Memory => ReadError::Memory,
        ReadError::Stopped(stop) => ReadError::Stopped(Stop {
            reason: stop.reason,
            left: bytes_left(tokens, stop.left),
        }),
    }
}

/// Reads an expression from a text.
pub fn read_expression(alloc: Global, text: &[u8]) -> Result<Expression, ReadError>
    // What is read is what the text says.
    ensures found { IfOk result (λ e. Says max_depth text.now (tree_of e)) }
    // What the text says is read, unless memory runs out.
    ensures only { (e : Tree) → Says max_depth text.now e → Gives tree_of result (Ok e) }
    // Where it is refused for another reason than its depth, it says nothing, however deep.
    ensures never { IfErr result (λ e. IsSyntax e → (n : ℕ) (t : Tree) → Says n text.now t → ⊥) }
    // Where it stops, and why.
    ensures fault { IfErr result (IsStop (IsFault text.now)) }
{
    let tokens = lex(alloc, text)?;
    match parse(alloc, &tokens) {
        Ok(expression) => Ok(expression),
        Err(error) => Err(in_bytes(error, &tokens)),
    }
}

/// What follows the spaces at the front.
pub fn behind_spaces(line: &[u8]) -> &[u8]
    ensures { result.now ≡ after_spaces line.now }
{
    &line[run_len(Class::Space, line)..]
}

fn behind_colon(text: &[u8]) -> Result<&[u8], ReadError>
    ensures { Gives (λ x. x.now) result (after_colon text.now) }
{
    let [first, rest @ ..] = text else {
        return Err(stop(Expected::Colon, 0));
    };
    if *first == b':' {
        Ok(rest)
    } else {
        Err(stop(Expected::Colon, text.len()))
    }
}

// A name as it is, and what is behind its colon.
#[tactic(auto, unfolding(crate::specs::Heading::bare_head))]
fn bare_head(alloc: Global, line: &[u8]) -> Result<(String, &[u8]), ReadError>
    ensures { Gives (λ x. (string_bytes x.0, x.1.now)) result (bare_head line.now) }
{
    let len = run_len(Class::Name, line);
    if len == 0 {
        return Err(stop(Expected::Name, line.len()));
    }
    let (name, rest) = line.split_at(len);
    let Some(name) = shown(name) else {
        return Err(stop(Expected::Utf8, line.len()));
    };
    let text = behind_colon(rest)?;
    Ok((String::from_str(alloc, name)?, text))
}

// A name in quotes, and what is behind its colon.
#[tactic(auto, unfolding(crate::specs::Heading::quoted_head))]
fn quoted_head(alloc: Global, line: &[u8]) -> Result<(String, &[u8]), ReadError>
    ensures { Gives (λ x. (string_bytes x.0, x.1.now)) result (quoted_head line.now) }
{
    let (kind, rest) = token(alloc, line)?;
    let name = title_of(line.len(), kind)?;
    let text = behind_colon(rest)?;
    Ok((name, text))
}

// The name at the front, and what is behind its colon.
#[tactic(auto, unfolding(crate::specs::Heading::head_at))]
fn head(alloc: Global, line: &[u8]) -> Result<(String, &[u8]), ReadError>
    ensures { Gives (λ x. (string_bytes x.0, x.1.now)) result (head_at line.now) }
{
    if is_quoted(line) {
        quoted_head(alloc, line)
    } else {
        bare_head(alloc, line)
    }
}

/// Reads the rule of a line, which may be blank.
pub fn read_line(alloc: Global, line: &[u8]) -> Result<Option<Rule>, ReadError>
    // What is read stands on the line.
    ensures found { IfOk result (λ o. IsLine max_depth line.now (option_map rule_of o)) }
    // What stands on the line is read, unless memory runs out.
    ensures only { (o : Option (List ℕ × Tree)) → IsLine max_depth line.now o
        → Gives (option_map rule_of) result (Ok o) }
    // Where it is refused for another reason than its depth, it has no rule, however deep.
    ensures never { IfErr result (λ e. IsSyntax e → (n : ℕ) (o : Option (List ℕ × Tree))
        → IsLine n line.now o → ⊥) }
    // Where it stops, and why.
    ensures fault { IfErr result (IsStop (IsLineFault line.now)) }
{
    let front = behind_spaces(line);
    if is_at_end(front) {
        return Ok(None);
    }
    let (name, text) = head(alloc, front)?;
    let expression = read_expression(alloc, text)?;
    Ok(Some(Rule { name, expression }))
}
