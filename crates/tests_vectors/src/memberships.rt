//! The table of members and items.
use crate::outcome::Outcome;
use crate::table::Table;
use anyhow::{Context, Result, bail};
use predicates::iter::{OrdInPredicate, Steps, in_hash, in_iter};
use std::alloc::Global;
use tests_support::{Answers, ask, read_numbers};

/// Rows of members, an item, three verdicts, three printed lists, a case, and how many comparisons
/// a search makes at most.
pub struct MembershipTable;

// The members that a cell is written for. A list that is too long is written as its first two
// members, two points and its last one, as far apart as the first two.
fn read_members(alloc: Global, cell: &str) -> Result<Vec<i64>> {
    let Some((front, last)) = cell.split_once(",..,") else {
        return read_numbers(alloc, cell)?.context("no numbers");
    };
    let front = read_numbers(alloc, front)?.context("no numbers")?;
    let last = last.parse::<i64>().context("no number")?;
    members_to(alloc, front.as_slice(), last)
}

// The members from the first of the two on, as far apart as they are, up to the last one.
fn members_to(alloc: Global, front: &[i64], last: i64) -> Result<Vec<i64>> {
    let [first, second] = front else {
        bail!("not two members before the points");
    };
    let step = second.saturating_sub(*first);
    let mut members: Vec<i64> = Vec::new(alloc);
    let mut member = *first;
    for _ in 0..LONGEST {
        if member > last {
            break;
        }
        members.push(member)?;
        member = member.saturating_add(step);
    }
    Ok(members)
}

// No list of the table has more members.
const LONGEST: u32 = 10_000;

// The debug form of a list whose members stand in order, each once.
fn text_of_members(alloc: Global, members: &[i64], brackets: [char; 2]) -> Result<String> {
    let mut text = String::new(alloc);
    text.push(brackets[0])?;
    for (place, member) in members.iter().enumerate() {
        let comma = if place > 0 { ", " } else { "" };
        write!(text, "{comma}{member}")?;
    }
    text.push(brackets[1])?;
    Ok(text)
}

// The brackets of a debug form.
const OF_LIST: [char; 2] = ['[', ']'];

const OF_SET: [char; 2] = ['{', '}'];

// What a row tells of one of the three memberships.
#[derive(Clone, Copy)]
struct Expected<'a> {
    column: &'static str,
    verdict: &'a str,
    values: &'a str,
    brackets: [char; 2],
}

impl<'a> Expected<'a> {
    fn new(
        column: &'static str,
        verdict: &'a str,
        values: &'a str,
        brackets: [char; 2],
    ) -> Expected<'a> {
        Expected {
            column,
            verdict,
            values,
            brackets,
        }
    }
}

// The line of the members that are shown.
fn shown_members(
    alloc: Global,
    members: &[i64],
    values: &str,
    brackets: [char; 2],
) -> Result<String> {
    if values != "long" {
        return Ok(format!(in alloc; "values={values}\n")?);
    }
    let listed = text_of_members(alloc, members, brackets)?;
    Ok(format!(in alloc; "values={listed}\n")?)
}

// Compares the verdict, and the members that are shown, whose cell is `long` for a list that is too
// long to be written.
fn compare_membership(
    outcome: &mut Outcome,
    answers: &Answers,
    members: &[i64],
    expected: Expected<'_>,
) -> Result<()> {
    let Expected {
        column,
        verdict,
        values,
        brackets,
    } = expected;
    outcome.compare_truth(column, verdict, answers.verdict)?;
    let lines = shown_members(outcome.alloc, members, values, brackets)?;
    outcome.compare_text(column, lines.as_str(), answers.description.as_str())
}

// Compares what the search answers, and that it makes no more comparisons than the row allows.
fn compare_search(
    outcome: &mut Outcome,
    sorted: &OrdInPredicate<i64>,
    item: i64,
    verdict: &str,
    most: &str,
) -> Result<()> {
    let mut steps = Steps::new();
    let found = sorted.search_counted(&item, &mut steps);
    outcome.compare_truth("searched", verdict, found)?;
    if steps.count() > most.parse::<usize>().context("no number")? {
        outcome.compare_number("most_comparisons", most, steps.count())?;
    }
    Ok(())
}

// Compares the case of the list, and that there is none for the opposite.
fn compare_listed(
    outcome: &mut Outcome,
    answers: &Answers,
    members: &[i64],
    expected: Expected<'_>,
    case: &str,
) -> Result<()> {
    compare_membership(outcome, answers, members, expected)?;
    let (of_verdict, opposite) = answers.cases();
    outcome.compare_case("case_in_iter", case, of_verdict)?;
    outcome.compare_case("the other case", "none", opposite)
}

fn ask_listed(alloc: Global, members: Vec<i64>, item: i64) -> Result<Answers> {
    let listed = in_iter(alloc, members)?;
    Ok(ask(alloc, &listed, &item)?)
}

fn replay_listed(
    outcome: &mut Outcome,
    members: &Vec<i64>,
    item: i64,
    expected: Expected<'_>,
    case: &str,
) -> Result<()> {
    let answers = ask_listed(outcome.alloc, members.clone()?, item)?;
    compare_listed(outcome, &answers, members.as_slice(), expected, case)
}

fn sorted_of(alloc: Global, members: Vec<i64>) -> Result<OrdInPredicate<i64>> {
    Ok(in_iter(alloc, members)?.sort()?)
}

fn replay_asked(
    outcome: &mut Outcome,
    sorted: &OrdInPredicate<i64>,
    members: &[i64],
    item: i64,
    expected: Expected<'_>,
) -> Result<()> {
    let answers = ask(outcome.alloc, sorted, &item)?;
    compare_membership(outcome, &answers, members, expected)
}

// Compares the sorted list, and its search.
fn compare_sorted(
    outcome: &mut Outcome,
    sorted: &OrdInPredicate<i64>,
    members: &[i64],
    item: i64,
    expected: Expected<'_>,
    most: &str,
) -> Result<()> {
    replay_asked(outcome, sorted, members, item, expected)?;
    compare_search(outcome, sorted, item, expected.verdict, most)
}

fn replay_sorted(
    outcome: &mut Outcome,
    members: &Vec<i64>,
    item: i64,
    expected: Expected<'_>,
    most: &str,
) -> Result<()> {
    let sorted = sorted_of(outcome.alloc, members.clone()?)?;
    compare_sorted(outcome, &sorted, members.as_slice(), item, expected, most)
}

fn ask_hashed(alloc: Global, members: Vec<i64>, item: i64) -> Result<Answers> {
    let hashed = in_hash(alloc, members)?;
    Ok(ask(alloc, &hashed, &item)?)
}

fn replay_hashed(
    outcome: &mut Outcome,
    members: &Vec<i64>,
    item: i64,
    expected: Expected<'_>,
) -> Result<()> {
    let answers = ask_hashed(outcome.alloc, members.clone()?, item)?;
    compare_membership(outcome, &answers, members.as_slice(), expected)
}

// The three memberships of the members, with the cells of each.
fn replay_all(
    outcome: &mut Outcome,
    members: &Vec<i64>,
    item: i64,
    [listed, sorted, hashed]: [Expected<'_>; 3],
    [case, most]: [&str; 2],
) -> Result<()> {
    replay_listed(outcome, members, item, listed, case)?;
    replay_sorted(outcome, members, item, sorted, most)?;
    replay_hashed(outcome, members, item, hashed)
}

impl Table for MembershipTable {
    fn replay(&self, cells: &[&str], outcome: &mut Outcome) -> Result<()> {
        let [
            members,
            item,
            listed,
            sorted,
            hashed,
            listed_values,
            sorted_values,
            hashed_values,
            case,
            most,
        ] = cells
        else {
            bail!("not ten cells");
        };
        let item = item.parse::<i64>().context("no number")?;
        let members = read_members(outcome.alloc, members)?;
        let expected = [
            Expected::new("in_iter", listed, listed_values, OF_LIST),
            Expected::new("sorted", sorted, sorted_values, OF_LIST),
            Expected::new("in_hash", hashed, hashed_values, OF_SET),
        ];
        replay_all(outcome, &members, item, expected, [case, most])
    }
}
