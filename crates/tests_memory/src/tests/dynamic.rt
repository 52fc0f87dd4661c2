//! Checks whose shape comes at run time.
ghost use Rattle.std.specs.Prelude.{◌≡◌, None, Some, [], ◌∷◌, codes, if◌then◌else◌, nat_eq, refl};
ghost use Rattle.predicates_core.specs.Label.{value_of};

use super::makers_without_memory::holds;
use predicates::custom::absent_case;
use predicates::ord::{OrdPredicate, ge, le, lt};
use predicates::reflection::Case;
use predicates::{PredicateChange, Total};
use predicates_tree::{Check, Listed, Members, NoContext, View};
use std::alloc::{AllocError, Global};
use std::fmt;
use std::process::Abort;
use tests_sweep::Memory::{Never, Taken};
use tests_sweep::{Answer, Call, Rendered, Row, over, refusing, sweep, sweep_calls};

// The one member of each item.
#[derive(Clone, Copy)]
struct Only;

impl fmt::Display for Only {
    ghost output = { λ _. Some (codes "only ") };

    fn fmt<W: fmt::Write>(&self, f: &mut fmt::Formatter<W>) -> fmt::Result {
        f.write_str("only ")
    }
}

impl Members<u32> for Only {
    ghost members_of = { λ _ _. Some (7 ∷ []) };

    ghost reason_of = { λ _ _. codes "" };

    fn members<'a>(&self, _item: &'a u32) -> Option<&'a [u32]> {
        Some(&[7])
    }

    fn reason(&self, _item: &u32) -> &str {
        ""
    }
}

type Numbers = Check<OrdPredicate<u32>, Only>;

// A check that was made.
#[derive(Drop)]
struct Made {
    check: Numbers,
}

impl Rendered for Made {
    fn rendered(&self, alloc: Global) -> Result<String, AllocError> {
        self.check.to_string(alloc)
    }
}

// A check over members.
#[derive(Clone, Copy)]
enum Over {
    Each,
    Any,
    AtLeast,
}

impl Call for Over {
    type Operand = Numbers;

    type Answer = Made;

    fn operand(&self, _alloc: Global) -> Result<Numbers, AllocError> {
        Ok(Check::leaf_beside_members(ge(5)))
    }

    fn call(&self, alloc: Global, part: Numbers) -> Result<Made, AllocError> {
        let check = match self {
            Over::Each => part.of_each(alloc, Only)?,
            Over::Any => part.of_any(alloc, Only)?,
            Over::AtLeast => part.of_at_least(alloc, 2, Only)?,
        };
        Ok(Made { check })
    }
}

const OVER: [(&str, Over, &str); 3] = [
    ("Check::of_each", Over::Each, "each only (var >= 5)"),
    ("Check::of_any", Over::Any, "any only (var >= 5)"),
    (
        "Check::of_at_least",
        Over::AtLeast,
        "at_least 2 only (var >= 5)",
    ),
];

#[test]
fn checks_over_members(rt: HostRuntime) {
    for (name, call, expected) in OVER {
        sweep(&rt, name, &call, expected, Taken).expect(&rt, "memory");
    }
}

#[test]
fn checks_without_memory(rt: HostRuntime) {
    let begun = refusing(rt.alloc(), "Check::leaf_beside_members");
    let leaf: Numbers = Check::leaf_beside_members(ge(5));
    holds(&rt, begun, leaf, &7)
}

// A row of each form over parts, which holds of 7.
fn row_of_joins(rt: &impl Abort, alloc: Global) -> Numbers {
    let denied = Check::leaf_beside_members(ge(10))
        .not(alloc)
        .expect(rt, "memory");
    let named = Check::leaf_beside_members(le(8))
        .name(alloc, "small")
        .expect(rt, "memory");
    let one = Check::any(vec![in alloc; Check::leaf_beside_members(ge(7))].expect(rt, "memory"));
    let exclusive = Check::leaf_beside_members(lt(3))
        .xor(alloc, one)
        .expect(rt, "memory");
    Check::all(vec![in alloc; denied, named, exclusive].expect(rt, "memory"))
}

const JOINS: &str = "\
all_of((! var >= 10), small, (var < 3 ^ any_of(var >= 7))) = true
  rule: (! var >= 10) = true
    predicate: var >= 10 = false
      - var: 7
  rule: small = true
    small: var <= 8 = true
      - var: 7
  rule: (var < 3 ^ any_of(var >= 7)) = true
    left: var < 3 = false
      - var: 7
    right: any_of(var >= 7) = true
      rule: var >= 7 = true
        - var: 7
";

const PARTS_OF_JOINS: &str = "\
rule: (! var >= 10)
  predicate: var >= 10
rule: small
  small: var <= 8
rule: (var < 3 ^ any_of(var >= 7))
  left: var < 3
  right: any_of(var >= 7)
    rule: var >= 7
";

// A threshold over each form over members, which does not hold.
fn threshold_of_members(rt: &impl Abort, alloc: Global) -> Numbers {
    let each = Check::leaf_beside_members(le(5))
        .of_each(alloc, Only)
        .expect(rt, "memory");
    let some = Check::leaf_beside_members(ge(9))
        .of_any(alloc, Only)
        .expect(rt, "memory");
    let two = Check::leaf_beside_members(ge(5))
        .of_at_least(alloc, 2, Only)
        .expect(rt, "memory");
    let odd = Check::odd(vec![in alloc; some, two].expect(rt, "memory"));
    Check::at_least(1, vec![in alloc; each, odd].expect(rt, "memory"))
}

const MEMBERS: &str = "\
at_least(1, each only (var <= 5), odd_of(any only (var >= 9), at_least 2 only (var >= 5))) = false
  rule: each only (var <= 5) = false
    item: var <= 5 = false
      - var: 7
  rule: odd_of(any only (var >= 9), at_least 2 only (var >= 5)) = false
    rule: any only (var >= 9) = false
      item: var >= 9 = false
        - var: 7
    rule: at_least 2 only (var >= 5) = false
      - len: 1
";

const PARTS_OF_MEMBERS: &str = "\
rule: each only (var <= 5)
  item: var <= 5
rule: odd_of(any only (var >= 9), at_least 2 only (var >= 5))
  rule: any only (var >= 9)
    item: var >= 9
  rule: at_least 2 only (var >= 5)
    item: var >= 5
";

// Sweeps over the calls of a check, which may be asked about any item.
fn sweep_check<R: Abort + AllocGlobal + Print, P: Total<u32> + PredicateChange<u32> + Drop>(
    rt: &R,
    check: P,
    item: u32,
    row: Row<'_>,
) {
    sweep_calls(rt, &check, &item, row).expect(rt, "memory")
}

#[test]
fn calls_of_checks(rt: HostRuntime) {
    let joins = row_of_joins(&rt, rt.alloc());
    sweep_check(
        &rt,
        joins,
        7,
        over("a Check of joins", true, JOINS, PARTS_OF_JOINS),
    );
    let members = threshold_of_members(&rt, rt.alloc());
    let row = over("a Check of members", false, MEMBERS, PARTS_OF_MEMBERS);
    sweep_check(&rt, members, 3, row)
}

// The text of the check.
#[derive(Drop)]
struct Printing<'a> {
    check: &'a Numbers,
}

impl Call for Printing<'_> {
    type Operand = ();

    type Answer = Answer;

    fn operand(&self, _alloc: Global) -> Result<(), AllocError> {
        Ok(())
    }

    fn call(&self, alloc: Global, _operand: ()) -> Result<Answer, AllocError> {
        Ok(Answer::Text(self.check.to_string(alloc)?))
    }
}

#[test]
fn texts_of_checks(rt: HostRuntime) {
    let check = row_of_joins(&rt, rt.alloc());
    let expected = "all_of((! var >= 10), small, (var < 3 ^ any_of(var >= 7)))";
    sweep(
        &rt,
        "the text of a Check of joins",
        &Printing { check: &check },
        expected,
        Taken,
    )
    .expect(&rt, "memory");
    let check = threshold_of_members(&rt, rt.alloc());
    let expected = "at_least(1, each only (var <= 5), odd_of(any only (var >= 9), \
        at_least 2 only (var >= 5)))";
    sweep(
        &rt,
        "the text of a Check of members",
        &Printing { check: &check },
        expected,
        Taken,
    )
    .expect(&rt, "memory")
}

// The item, twice, in a list that is made for the call; 0 has none.
#[derive(Clone, Copy)]
struct Twice;

impl fmt::Display for Twice {
    ghost output = { λ _. Some (codes "twice ") };

    fn fmt<W: fmt::Write>(&self, f: &mut fmt::Formatter<W>) -> fmt::Result {
        f.write_str("twice ")
    }
}

impl View<u32> for Twice {
    type Kept = Vec<u32>;

    ghost gives = { λ _ n o. o ≡ (if nat_eq n 0 then None else Some (n ∷ n ∷ [])) };

    ghost given = { λ _ n. (if nat_eq n 0 then None else Some (n ∷ n ∷ []), refl) };

    ghost lends = { λ _ _. ⊥ };

    ghost absence_of = { λ _ _. value_of (codes "error") (Some (codes "none")) };

    fn list<'i>(
        &self,
        alloc: Global,
        item: &'i u32,
    ) -> Result<Option<Listed<'i, u32, Vec<u32>>>, AllocError> {
        if *item == 0 {
            return Ok(None);
        }
        let mut members = Vec::new(alloc);
        members.push(*item)?;
        members.push(*item)?;
        Ok(Some(Listed::Kept(members)))
    }

    fn absent_case<W: fmt::Display>(
        &self,
        alloc: Global,
        whole: &W,
        _item: &u32,
    ) -> Result<Case, AllocError> {
        absent_case(alloc, whole, "none")
    }
}

type Listing = Check<OrdPredicate<u32>, Twice>;

// A verdict with what a run keeps, which is nothing here.
#[derive(Drop)]
struct Asking<'a> {
    check: &'a Listing,
    item: u32,
}

impl Call for Asking<'_> {
    type Operand = ();

    type Answer = Answer;

    fn operand(&self, _alloc: Global) -> Result<(), AllocError> {
        Ok(())
    }

    #[tactic(auto, using(predicates_tree::specs::Laws::all_leaves))]
    fn call(&self, alloc: Global, _operand: ()) -> Result<Answer, AllocError> {
        let holds = self.check.eval_with(alloc, &mut NoContext, &self.item)?;
        Ok(Answer::Verdict(holds))
    }
}

#[test]
fn verdicts_over_lists_that_are_made(rt: HostRuntime) {
    let alloc = rt.alloc();
    let leaf: Listing = Check::leaf_beside_members(ge(5));
    let check = leaf.of_each(alloc, Twice).expect(&rt, "memory");
    for (item, expected) in [(7, "true"), (4, "false")] {
        let asking = Asking {
            check: &check,
            item,
        };
        sweep(&rt, "Check::eval_with", &asking, expected, Taken).expect(&rt, "memory");
    }
    let asking = Asking {
        check: &check,
        item: 0,
    };
    sweep(&rt, "Check::eval_with of no list", &asking, "false", Never).expect(&rt, "memory")
}
