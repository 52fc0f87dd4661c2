//! The calls of a predicate on an item, with requests for memory refused in turn.
use crate::answer::Answer;
use crate::call::{Call, Memory};
use crate::refusals::sweep;
use crate::requests::count_asked;
use crate::wrong::Wrong;
use predicates_core::PredicateChange;
use predicates_core::reflection::render;
use std::alloc::{AllocError, Global};

// One call of a predicate.
#[derive(Clone, Copy)]
enum Called {
    Verdict,
    Case(bool),
    Explained(Option<bool>),
    Change(Option<bool>),
    Parameters,
    Children,
}

// A predicate, an item and a call.
#[derive(Drop)]
struct Question<'a, P, Item> {
    predicate: &'a P,
    item: &'a Item,
    called: Called,
}

impl<P: PredicateChange<Item>, Item> Call for Question<'_, P, Item> {
    ghost ready = { λ q. P.lawful q.predicate.now };

    type Operand = ();

    type Answer = Answer;

    fn operand(&self, _alloc: Global) -> Result<(), AllocError> {
        Ok(())
    }

    fn call(&self, alloc: Global, _operand: ()) -> Result<Answer, AllocError> {
        match self.called {
            Called::Verdict => Ok(Answer::Verdict(self.predicate.eval(alloc, self.item)?)),
            Called::Case(expected) => {
                Ok(Answer::Case(self.predicate.find_case(alloc, expected, self.item)?))
            }
            Called::Explained(wanted) => {
                let found = self.predicate.explain(alloc, wanted, self.item)?;
                Ok(Answer::Case(found))
            }
            Called::Change(wanted) => {
                let change = self.predicate.find_change(alloc, wanted, self.item)?;
                Ok(Answer::Case(change))
            }
            Called::Parameters => Ok(Answer::Parameters(self.predicate.parameters(alloc)?)),
            Called::Children => Ok(Answer::Children(self.predicate.children(alloc)?)),
        }
    }
}

/// What a predicate answers on an item: the lines of its case, of its parameters and of its
/// children.
#[derive(Clone, Copy)]
pub struct Row<'a> {
    pub name: &'a str,
    pub verdict: bool,
    pub eval: Memory,
    pub case: Memory,
    /// What `find_case` for the opposite truth does.
    pub opposite: Memory,
    pub lines: &'a str,
    pub parameters: &'a str,
    pub children: &'a str,
}

impl<'a> Row<'a> {
    /// The row with these lines of parameters.
    pub fn with_parameters(mut self, parameters: &'a str) -> Row<'a> {
        self.parameters = parameters;
        self
    }
}

/// The row of a leaf, which takes memory for its case alone.
pub fn leaf<'a>(name: &'a str, verdict: bool, lines: &'a str) -> Row<'a> {
    Row {
        name,
        verdict,
        eval: Memory::Never,
        case: Memory::Taken,
        opposite: Memory::Never,
        lines,
        parameters: "",
        children: "",
    }
}

/// The row of a predicate over parts, of which the items are seen without memory.
pub fn over<'a>(name: &'a str, verdict: bool, lines: &'a str, children: &'a str) -> Row<'a> {
    Row {
        name,
        verdict,
        eval: Memory::Never,
        case: Memory::Taken,
        opposite: Memory::Perhaps,
        lines,
        parameters: "",
        children,
    }
}

// The lines of what would turn the verdict, with ample memory.
fn change_lines<P: PredicateChange<Item>, Item>(
    alloc: Global,
    predicate: &P,
    item: &Item,
) -> Result<String, AllocError>
    requires { P.lawful predicate.now }
{
    match predicate.find_change(alloc, None, item)? {
        Some(case) => render(alloc, &case),
        None => Ok(String::new(alloc)),
    }
}

fn sweep_change<R: AllocGlobal + Print, P: PredicateChange<Item>, Item>(
    rt: &R,
    predicate: &P,
    item: &Item,
    row: Row<'_>,
) -> Result<(), Wrong>
    requires { P.lawful predicate.now }
{
    let lines = change_lines(rt.alloc(), predicate, item)?;
    let name = format!(in rt.alloc(); "find_change of {}", row.name)?;
    let called = Called::Change(Some(row.verdict));
    let question = Question {
        predicate,
        item,
        called,
    };
    sweep(rt, name.as_str(), &question, lines.as_str(), row.case)
}

/// Sweeps over `eval`, `find_case` for either truth, `explain` of whichever it is, `find_change`,
/// `parameters` and `children` of the predicate.
pub fn sweep_calls<R: AllocGlobal + Print, P: PredicateChange<Item>, Item>(
    rt: &R,
    predicate: &P,
    item: &Item,
    row: Row<'_>,
) -> Result<(), Wrong>
    requires { P.lawful predicate.now }
{
    let opposite = !row.verdict;
    let verdict = if row.verdict { "true" } else { "false" };
    let (parameters, children) = (row.parameters, row.children);
    for (call, called, expected, memory) in [
        ("eval", Called::Verdict, verdict, row.eval),
        ("find_case", Called::Case(row.verdict), row.lines, row.case),
        (
            "find_case for the opposite",
            Called::Case(opposite),
            "none",
            row.opposite,
        ),
        ("explain", Called::Explained(None), row.lines, row.case),
        (
            "parameters",
            Called::Parameters,
            parameters,
            of_list(parameters),
        ),
        ("children", Called::Children, children, of_list(children)),
    ] {
        let name = format!(in rt.alloc(); "{call} of {}", row.name)?;
        let question = Question {
            predicate,
            item,
            called,
        };
        sweep(rt, name.as_str(), &question, expected, memory)?;
    }
    sweep_change(rt, predicate, item, row)
}

// A list that is empty takes no memory.
fn of_list(expected: &str) -> Memory {
    if expected.is_empty() {
        Memory::Never
    } else {
        Memory::Taken
    }
}

// The calls that answer by an item, with the verdict that they expect or want.
const ASKING: [(&str, Called); 9] = [
    ("eval", Called::Verdict),
    ("find_case of true", Called::Case(true)),
    ("find_case of false", Called::Case(false)),
    ("explain of either", Called::Explained(None)),
    ("explain of true", Called::Explained(Some(true))),
    ("explain of false", Called::Explained(Some(false))),
    ("find_change of either", Called::Change(None)),
    ("find_change of true", Called::Change(Some(true))),
    ("find_change of false", Called::Change(Some(false))),
];

/// Counts how often each call asks the parts of the predicate that take one request for memory
/// about the item, and none about the plain one, of which the predicate has the same cases: `eval`;
/// `find_case` of true and of false; `explain` and `find_change` of either, of true and of false.
pub fn count_asked_calls<R: AllocGlobal + Print, P: PredicateChange<Item>, Item>(
    rt: &R,
    name: &str,
    predicate: &P,
    items: [&Item; 2],
    times: [u16; 9],
) -> Result<(), Wrong>
    requires { P.lawful predicate.now }
{
    let [item, plain] = items;
    for ((asking, called), times) in ASKING.into_iter().zip(times) {
        let name = format!(in rt.alloc(); "{asking} by {name}")?;
        let question = Question {
            predicate,
            item,
            called,
        };
        let plain = Question {
            item: plain,
            ..question
        };
        count_asked(rt, name.as_str(), &question, &plain, times)?;
    }
    Ok(())
}
