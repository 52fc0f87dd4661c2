//! Checks that keep their texts, ask members that are listed for a call, and are evaluated with
//! what a run keeps.
ghost use Rattle.std.specs.Prelude.{◌≡◌, ◌∷◌, ◌/◌, ◌%◌, [], refl, ℕ, List, Option, None, Some};
ghost use Rattle.std.specs.Prelude.{codes, if◌then◌else◌, nat_lt, not, string_bytes};
ghost use Rattle.predicates_core.specs.Label.{value_of};

use crate::tests::made::{Host, in_box, owned};
use predicates::custom::{HowMany, Test, TestPredicate, absent_case, leaf};
use predicates::reflection::{Case, render};
use predicates::{Predicate, Total};
use predicates_tree::{Check, EvaluateWith, Listed, Quota, View, Wording};
use std::alloc::{AllocError, Global};
use std::fmt;

// A text that a node keeps; its parts are called so.
#[derive(Drop)]
struct Titled {
    title: String,
}

impl Wording for Titled {
    ghost words = { λ t. record { text = Some (string_bytes t.title); part = codes "part" } };

    fn text(&self) -> Option<&str> {
        Some(&self.title)
    }

    fn part(&self) -> &'static str {
        "part"
    }
}

// The tens and the ones of a number of at least two digits, as numbers.
#[derive(Clone, Copy)]
struct Digits;

impl fmt::Display for Digits {
    ghost output = { λ _. Some (codes "digits") };

    fn fmt<W: fmt::Write>(&self, f: &mut fmt::Formatter<W>) -> fmt::Result {
        f.write_str("digits")
    }
}

impl View<u32> for Digits {
    type Kept = Vec<u32>;

    ghost gives = { λ _ n o. o ≡ (if nat_lt n 10 then None else Some (n / 10 ∷ n % 10 ∷ [])) };

    ghost given = { λ _ n. (if nat_lt n 10 then None else Some (n / 10 ∷ n % 10 ∷ []), refl) };

    ghost lends = { λ _ _. ⊥ };

    ghost absence_of = { λ _ _. value_of (codes "error") (Some (codes "one digit")) };

    fn list<'i>(
        &self,
        alloc: Global,
        item: &'i u32,
    ) -> Result<Option<Listed<'i, u32, Vec<u32>>>, AllocError> {
        let number = *item;
        if number < 10 {
            return Ok(None);
        }
        let mut digits = Vec::new(alloc);
        digits.push(number / 10)?;
        digits.push(number % 10)?;
        Ok(Some(Listed::Kept(digits)))
    }

    fn absent_case<W: fmt::Display>(
        &self,
        alloc: Global,
        whole: &W,
        _item: &u32,
    ) -> Result<Case, AllocError> {
        absent_case(alloc, whole, "one digit")
    }
}

// It is at least so large.
#[derive(Clone, Copy)]
struct Least {
    least: u32,
}

impl fmt::Display for Least {
    ghost output = { λ _. None };

    fn fmt<W: fmt::Write>(&self, f: &mut fmt::Formatter<W>) -> fmt::Result {
        let least = self.least;
        write!(f, "at least {least}")
    }
}

impl Test<u32> for Least {
    ghost holds_of = { λ t v. not (nat_lt v t.least) };

    fn holds(&self, item: &u32) -> bool {
        *item >= self.least
    }
}

// How many items the leaves were asked about.
#[derive(Drop)]
struct Calls {
    number: u32,
}

impl EvaluateWith<u32, Calls> for TestPredicate<Least> {
    fn eval_with(
        &self,
        alloc: Global,
        context: &mut Calls,
        item: &u32,
    ) -> Result<bool, AllocError> {
        context.number = context.number.wrapping_add(1);
        self.eval(alloc, item)
    }
}

type Rule = Check<TestPredicate<Least>, Digits, Titled>;

fn with_title(rt: &impl Host, title: &str) -> Titled {
    let title = owned(rt, title);
    Titled { title }
}

// Each digit of the number is at least five, or the number is at least a thousand.
fn rule(rt: &impl Host) -> Rule {
    let digit = in_box(rt, Check::Leaf(leaf(Least { least: 5 })));
    let each = Quota::Threshold(HowMany::Every);
    let digits = Check::Members(with_title(rt, "large digits"), each, Digits, digit);
    let large = Check::Leaf(leaf(Least { least: 1000 }));
    let parts = vec![in rt.alloc(); digits, large].expect(rt, "memory");
    let any = Quota::Threshold(HowMany::AtLeastOne);
    Check::Row(with_title(rt, "large"), any, parts)
}

// The printed case of the verdict that the rule has on the number.
fn shown<P: Predicate<u32>>(rt: &impl Host, rule: &P, item: u32) -> String
    requires { P.lawful rule.now }
{
    match rule.explain(rt.alloc(), None, &item).expect(rt, "memory") {
        Some(case) => render(rt.alloc(), &case).expect(rt, "memory"),
        None => owned(rt, ""),
    }
}

const DECIDED: &str = "\
large = true
  part: large digits = true
    - index: 0
    item: at least 5 = true
      - var: 7
    item: at least 5 = true
      - var: 5
";

const FAILED: &str = "\
large = false
  part: large digits = false
    item: at least 5 = false
      - var: 2
      - index: 1
  part: at least 1000 = false
    - var: 52
";

const ONE_DIGIT: &str = "\
large = false
  part: large digits = false
    - error: one digit
  part: at least 1000 = false
    - var: 7
";

#[test]
#[tactic(auto, using(predicates_tree::specs::Laws::all_leaves))]
fn kept_texts_stand_in_place_of_computed_ones(rt: HostRuntime) {
    let rule = rule(&rt);
    let rows = [(75, DECIDED), (52, FAILED), (7, ONE_DIGIT)];
    for (item, lines) in rows {
        assert!(rt; shown(&rt, &rule, item).as_str() == lines);
    }
}

#[test]
#[tactic(auto, using(predicates_tree::specs::Laws::all_leaves))]
fn leaves_are_asked_with_what_the_run_keeps(rt: HostRuntime) {
    let alloc = rt.alloc();
    let rule = rule(&rt);
    let mut calls = Calls { number: 0 };
    for (item, holds, asked) in [
        (75, true, 2),
        (52, false, 5),
        (7, false, 6),
        (1200, true, 9),
    ] {
        assert!(rt;
            rule.eval_with(alloc, &mut calls, &item)
                .expect(&rt, "memory")
                == holds
        );
        assert!(rt; calls.number == asked);
    }
}
