//! What a word makes of the checks before it.
ghost use Rattle.std.specs.Prelude.{◌≡◌, ◌≢◌, ◌↔◌, ◌<◌, [], ◌∷◌, ◌++◌, IfOk, IfErr, OnOk, Err};
ghost use Rattle.std.specs.Prelude.{length};
ghost use Rattle.explain_words.specs.Applied.{operand_count, IsMade, IsApplied, IsRefusedWord};
ghost use Rattle.explain_words.specs.Applied.{IsNoExpression};

use crate::check::TextCheck;
use crate::word::Word;
use crate::word_fault::WordFault;
use predicates_item::ord::eq;
use predicates_text::{RegexError, contains, ends_with, is_empty, is_match, starts_with};
use std::alloc::Global;

// The last check, taken off.
fn take_one(alloc: Global, stack: &mut Vec<TextCheck>) -> Result<Box<TextCheck>, WordFault>
    ensures taken { IfOk result (λ last. stack.old.items ≡ stack.new.items ++ last.value ∷ []) }
    ensures operand { (result ≡ Err WordFault.Operand) ↔ (length stack.old.items < 1) }
    ensures unchanged { result ≡ Err WordFault.Operand → stack.new.items ≡ stack.old.items }
    ensures fault { IfErr result (λ fault. fault ≢ WordFault.Pattern) }
{
    let Some(last) = stack.pop() else {
        return Err(WordFault::Operand);
    };
    Box::new(alloc, last).map_err(|_| WordFault::NoMemory)
}

// The last two checks, taken off, the earlier one first.
fn take_two(
    alloc: Global,
    stack: &mut Vec<TextCheck>,
) -> Result<(Box<TextCheck>, Box<TextCheck>), WordFault>
    ensures taken { IfOk result (λ last.
        stack.old.items ≡ stack.new.items ++ last.0.value ∷ last.1.value ∷ []) }
    ensures operand { (result ≡ Err WordFault.Operand) ↔ (length stack.old.items < 2) }
    ensures unchanged { result ≡ Err WordFault.Operand → stack.new.items ≡ stack.old.items }
    ensures fault { IfErr result (λ fault. fault ≢ WordFault.Pattern) }
{
    if stack.len() < 2 {
        return Err(WordFault::Operand);
    }
    let right = take_one(alloc, stack)?;
    let left = take_one(alloc, stack)?;
    Ok((left, right))
}

// The check of a word, over the operands that it takes off.
fn make_check(alloc: Global, stack: &mut Vec<TextCheck>, word: Word) -> Result<TextCheck, WordFault>
    ensures made { IfOk result (IsMade word stack.old.items stack.new.items) }
    ensures operand { (result ≡ Err WordFault.Operand)
        ↔ (length stack.old.items < operand_count word) }
    ensures pattern { result ≡ Err WordFault.Pattern → IsRefusedWord word }
    ensures no_expression { IsNoExpression word → OnOk result ⊥ }
    ensures unchanged { IfErr result
        (λ fault. fault ≢ WordFault.NoMemory → stack.new.items ≡ stack.old.items) }
{
    match word {
        Word::Empty => Ok(TextCheck::Empty(is_empty())),
        Word::Equals(constant) => Ok(TextCheck::Equals(eq(constant))),
        Word::Starts(pattern) => Ok(TextCheck::Starts(starts_with(pattern))),
        Word::Ends(pattern) => Ok(TextCheck::Ends(ends_with(pattern))),
        Word::Contains(pattern) => Ok(TextCheck::Contains(contains(pattern))),
        Word::Matches(pattern) => match is_match(alloc, pattern) {
            Ok(leaf) => Ok(TextCheck::Matches(leaf)),
            Err(RegexError::OutOfMemory) => Err(WordFault::NoMemory),
            Err(_) => Err(WordFault::Pattern),
        },
        Word::Trim => Ok(TextCheck::Trim(take_one(alloc, stack)?)),
        Word::Normalize => Ok(TextCheck::Normalize(take_one(alloc, stack)?)),
        Word::Not => Ok(TextCheck::Not(take_one(alloc, stack)?)),
        Word::And => {
            let (left, right) = take_two(alloc, stack)?;
            Ok(TextCheck::And(left, right))
        }
        Word::Or => {
            let (left, right) = take_two(alloc, stack)?;
            Ok(TextCheck::Or(left, right))
        }
        Word::Xor => {
            let (left, right) = take_two(alloc, stack)?;
            Ok(TextCheck::Xor(left, right))
        }
    }
}

/// Puts the check of the word last on the stack, over the operands that it takes off the end, of
/// two the earlier one as left.
///
/// After `Operand` and `Pattern` the stack is as before, and the word is dropped. After `NoMemory`
/// operands may be gone.
///
/// ```
/// let mut stack = Vec::new(alloc);
/// apply_word(alloc, &mut stack, Word::Empty)?;
/// apply_word(alloc, &mut stack, Word::Trim)?;
/// assert!(rt; stack.len() == 1);
/// ```
pub fn apply_word(alloc: Global, stack: &mut Vec<TextCheck>, word: Word) -> Result<(), WordFault>
    ensures applied { OnOk result (IsApplied word stack.old.items stack.new.items) }
    ensures operand { (result ≡ Err WordFault.Operand)
        ↔ (length stack.old.items < operand_count word) }
    ensures pattern { result ≡ Err WordFault.Pattern → IsRefusedWord word }
    ensures no_expression { IsNoExpression word → OnOk result ⊥ }
    ensures unchanged { IfErr result
        (λ fault. fault ≢ WordFault.NoMemory → stack.new.items ≡ stack.old.items) }
{
    let check = make_check(alloc, stack, word)?;
    stack.push(check).map_err(|_| WordFault::NoMemory)
}
