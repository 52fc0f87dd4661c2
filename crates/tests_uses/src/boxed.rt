//! A text that is asked about in a box.
ghost use Rattle.std.specs.Prelude.{◌≡◌, IfOk, string_bytes};
ghost use Rattle.predicates_core.specs.Formula.{truth};

use predicates::TextPredicate;
use predicates::prelude::*;
use std::alloc::{AllocError, Global};

/// Whether the predicate holds of the text, asked in a box: the truth of its own formula there. It
/// takes memory for the printed text, which the box keeps, and what the predicate takes.
#[tactic(auto, using(crate::proofs::InBoxes::boxed_truth))]
pub fn eval_boxed(
    alloc: Global,
    inner: Box<dyn TextPredicate>,
    text: &String,
) -> Result<bool, AllocError>
    ensures { IfOk result (λ holds. truth (text_formula inner (string_bytes text.now)) ≡ holds) }
{
    let holds = BoxPredicate::new(alloc, inner)?.eval(alloc, text)?;
    Ok(holds)
}
