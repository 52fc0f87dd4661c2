//! What the words of a command line ask for.
ghost use Rattle.std.specs.Prelude.{◌≡◌, ◌≤◌, ◌↔◌, ℤ, [], ◌∷◌, IfOk, IfErr, IsTrue, OnOk};
ghost use Rattle.std.specs.Prelude.{MatchOption};
ghost use Rattle.explain_words.specs.Depths.{AreTracked};
ghost use Rattle.explain_words.specs.declared.from_words.TheConstants.{MAX_DEPTH};
ghost use Rattle.explain_run.specs.Number.{Reads};
ghost use Rattle.explain_run.specs.Exits.{IsTokenFault, HasTokensFault};
ghost use Rattle.explain_run.specs.CommandLine.{typed, AreNumbers};
ghost use Rattle.explain_words.specs.Postfix.{Makes, AreWithin, depth};

use super::exit::Exit;
use crate::parse_number::number;
use explain_words::{TextCheck, WordProblem, take_word};
use std::alloc::Global;
use std::str;

// Applies the word with the token, and keeps the depths of the checks.
fn take_token(
    alloc: Global,
    checks: &mut Vec<TextCheck>,
    depths: &mut Vec<usize>,
    token: &[u8],
) -> Result<(), Exit>
    requires { AreTracked checks.now.items depths.now.items }
    ensures made { OnOk result (Makes (token.now ∷ []) checks.old.items checks.new.items) }
    ensures tracked { OnOk result (AreTracked checks.new.items depths.new.items) }
    ensures fault { IfErr result (IsTokenFault checks.old.items token.now) }
{
    let Ok(text) = str::from_utf8(token) else {
        return Err(Exit::Usage);
    };
    match take_word(alloc, checks, depths, text)? {
        None => Ok(()),
        Some(WordProblem::NoSuchWord | WordProblem::TooFewChecks) => Err(Exit::Usage),
        Some(WordProblem::BadExpression) => Err(Exit::PatternRefused),
        Some(WordProblem::TooDeep) => Err(Exit::TooDeep),
    }
}

// The checks that the tokens leave.
fn read_checks(alloc: Global, tokens: &[Vec<u8>]) -> Result<Vec<TextCheck>, Exit>
    ensures made { IfOk result (λ checks. Makes (typed tokens.now) [] checks.items) }
    ensures within { IfOk result (λ checks. AreWithin checks.items) }
    ensures fault { IfErr result (HasTokensFault (typed tokens.now)) }
{
    let mut checks = Vec::new(alloc);
    let mut depths = Vec::new(alloc);
    for token in tokens {
        take_token(alloc, &mut checks, &mut depths, token)?;
    }
    Ok(checks)
}

fn is_one(count: usize) -> bool
    ensures { IsTrue result ↔ (count ≡ 1) }
{
    count == 1
}

// The one check that the tokens leave.
pub(super) fn read_check(alloc: Global, tokens: &[Vec<u8>]) -> Result<TextCheck, Exit>
    ensures made { IfOk result (λ check. Makes (typed tokens.now) [] (check ∷ [])) }
    ensures within { IfOk result (λ check. depth check ≤ MAX_DEPTH) }
    ensures fault { IfErr result (HasTokensFault (typed tokens.now)) }
{
    let mut stack = read_checks(alloc, tokens)?;
    if !is_one(stack.len()) {
        return Err(Exit::Usage);
    }
    stack.pop().ok_or(Exit::Usage)
}

// The numbers that two words write.
fn read_numbers(lo: &[u8], hi: &[u8]) -> Option<(i64, i64)>
    ensures { MatchOption result
        ((a b : ℤ) → Reads lo.now a → ¬ (Reads hi.now b))
        (λ bounds. Reads lo.now bounds.0 × Reads hi.now bounds.1) }
{
    match (number(lo), number(hi)) {
        (Some(lo), Some(hi)) => Some((lo, hi)),
        _ => None,
    }
}

// The two numbers that are the bounds.
pub(super) fn read_bounds(words: &[Vec<u8>]) -> Option<(i64, i64)>
    ensures { MatchOption result
        ((lo hi : ℤ) → ¬ (AreNumbers (typed words.now) lo hi))
        (λ bounds. AreNumbers (typed words.now) bounds.0 bounds.1) }
{
    match words {
        [lo, hi] => read_numbers(lo, hi),
        _ => None,
    }
}
