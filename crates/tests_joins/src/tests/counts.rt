//! How often the leaves of a predicate are evaluated, which no contract says.

// How often the leaves of a part with this item are asked in the whole, on an item.
macro_rules! counts_in {
    ($rt:ident, $asked:ident, |$part:ident: $seen:ty| $whole:expr, $item:expr) => {
        if $asked.is_pair {
            let $part = $asked.both::<$seen>();
            $asked.alone($rt, $whole, $item)
        } else {
            let $part = $asked.leaf::<$seen>();
            $asked.alone($rt, $whole, $item)
        }
    };
}

mod around;
mod counting;
mod reports;
mod shapes;

use crate::tests::made::Host;
use around::{Around, Asked};
use shapes::counts_of;
use std::cell::Cell;

// A predicate, what stands around it, and how often its leaves and that beside it are evaluated: by
// `eval`; `find_case` of true, of false; `explain` of either, of true, of false; `find_change` of
// the same; `require`. All hold but the second leaf of each pair and of each list, what stands
// around by a name with `_no`, and what is denied. What is named `and_..` asks a pair under `and`
// about a part or a view, `long_..` about 10,000 members, and `reads_..` counts how often a part is
// read.
const ROWS: &str = "\
leaf alone 1 1 1 1 1 1 1 1 1 1
function alone 1 1 1 1 1 1 1 1 1 1
not alone 1 1 1 1 1 1 1 1 1 2
name alone 1 1 1 1 1 1 1 1 1 1
and alone 2 2 4 2 2 2 2 2 2 4
or alone 1 2 1 1 1 1 2 2 2 1
xor alone 2 4 2 2 2 2 2 2 2 2
deep_left alone 5 10 5 5 5 5 5 5 5 5
deep_right alone 3 6 3 3 3 3 3 3 3 3
either alone 1 2 1 1 1 1 2 2 2 1
trim alone 1 1 1 1 1 1 1 1 1 1
normalize alone 1 1 1 1 1 1 1 1 1 1
fold_case alone 1 1 1 1 1 1 1 1 1 1
from_utf8 alone 1 1 1 1 1 1 1 1 1 1
no_text alone 0 0 0 0 0 0 0 0 0 0
from_file_path alone 1 1 1 1 1 1 1 1 1 1
of alone 1 1 1 1 1 1 1 1 1 1
of_ref alone 1 1 1 1 1 1 1 1 1 1
of_field alone 1 1 1 1 1 1 1 1 1 1
of_some_ref alone 1 1 1 1 1 1 1 1 1 1
no_ref alone 0 0 0 0 0 0 0 0 0 0
of_some_of_ref alone 1 1 1 1 1 1 1 1 1 1
of_some alone 1 1 1 1 1 1 1 1 1 1
absent alone 0 0 0 0 0 0 0 0 0 0
of_ok alone 1 1 1 1 1 1 1 1 1 1
of_err alone 1 1 1 1 1 1 1 1 1 1
of_pointer alone 1 1 1 1 1 1 1 1 1 1
no_value alone 0 0 0 0 0 0 0 0 0 0
of_bool alone 1 1 1 1 1 1 1 1 1 1
of_string alone 1 1 1 1 1 1 1 1 1 1
other_kind alone 0 0 0 0 0 0 0 0 0 0
of_array alone 1 1 1 1 1 1 1 1 1 1
of_object alone 1 1 1 1 1 1 1 1 1 1
of_number alone 1 1 1 1 1 1 1 1 1 1
misfit alone 0 0 0 0 0 0 0 0 0 0
each alone 2 2 3 2 2 2 3 2 3 4
any alone 1 2 1 1 1 1 3 3 1 1
of_at_least alone 3 6 3 3 3 3 3 3 3 3
of_at_most alone 3 3 6 3 3 3 3 3 3 6
of_exactly alone 5 10 5 5 5 5 5 5 5 5
of_len alone 1 1 1 1 1 1 1 1 1 1
all_of alone 2 2 3 2 2 2 3 2 3 4
any_of alone 1 2 1 1 1 1 3 3 1 1
at_least alone 3 6 3 3 3 3 3 3 3 3
at_most alone 3 3 6 3 3 3 3 3 3 6
exactly alone 5 10 5 5 5 5 5 5 5 5
and_trim alone 2 2 4 2 2 2 2 2 2 4
and_normalize alone 2 2 4 2 2 2 2 2 2 4
and_fold_case alone 2 2 4 2 2 2 2 2 2 4
and_from_utf8 alone 2 2 4 2 2 2 2 2 2 4
and_from_file_path alone 2 2 4 2 2 2 2 2 2 4
and_of alone 2 2 4 2 2 2 2 2 2 4
and_of_ref alone 2 2 4 2 2 2 2 2 2 4
and_of_field alone 2 2 4 2 2 2 2 2 2 4
and_of_some_ref alone 2 2 4 2 2 2 2 2 2 4
and_of_some alone 2 2 4 2 2 2 2 2 2 4
and_of_ok alone 2 2 4 2 2 2 2 2 2 4
and_of_err alone 2 2 4 2 2 2 2 2 2 4
and_of_len alone 2 2 4 2 2 2 2 2 2 4
and_of_pointer alone 2 2 4 2 2 2 2 2 2 4
and_of_bool alone 2 2 4 2 2 2 2 2 2 4
and_of_string alone 2 2 4 2 2 2 2 2 2 4
and_of_array alone 2 2 4 2 2 2 2 2 2 4
and_of_object alone 2 2 4 2 2 2 2 2 2 4
and_of_number alone 2 2 4 2 2 2 2 2 2 4
after_true_and alone 1 2 1 1 1 1 1 1 1 1
after_false_and alone 0 0 0 0 0 0 1 1 1 0
after_true_or alone 0 0 0 0 0 0 1 1 1 0
after_false_or alone 1 2 1 1 1 1 1 1 1 1
after_true_either alone 0 0 0 0 0 0 1 1 1 0
after_false_either alone 1 2 1 1 1 1 1 1 1 1
right_first alone 1 1 1 1 1 1 1 1 1 1
own alone 1 1 2 1 1 1 1 1 1 2
four_by_and alone 4 8 4 4 4 4 4 4 4 4
four_by_or alone 1 2 1 1 1 1 4 4 4 1
three_by_xor alone 3 6 3 3 3 3 3 3 3 3
joins_in_joins alone 3 6 3 3 3 3 4 4 4 3
negations alone 1 1 1 1 1 1 1 1 1 1
reads_of alone 1 1 1 1 1 1 1 1 1 1
reads_of_ref alone 1 1 1 1 1 1 1 1 1 1
reads_of_field alone 1 1 1 1 1 1 1 1 1 1
long_each alone 10000 20000 10000 10000 10000 10000 10000 10000 10000 10000
long_each_denied alone 1 1 2 1 1 1 10000 1 10000 2
long_any alone 1 2 1 1 1 1 10000 10000 1 1
long_any_denied alone 10000 10000 20000 10000 10000 10000 10000 10000 10000 20000
long_two alone 2 4 2 2 2 2 10000 10000 2 2
two_members alone 2 4 2 2 2 2 10000 10000 10000 2
long_two_denied alone 9999 9999 19998 9999 9999 9999 10000 9999 10000 19998
lists_in_joins alone 3 3 6 3 3 3 3 3 3 6
lists_in_lists alone 5 10 5 5 5 5 5 5 5 5
all_of_true alone 3 6 3 3 3 3 3 3 3 3
any_of_true alone 1 2 1 1 1 1 3 3 1 1
all_of_denied alone 1 1 2 1 1 1 3 1 3 2
two_rules alone 2 4 2 2 2 2 3 3 3 2
one_of_five alone 1 2 1 1 1 1 5 5 1 1
two_of_five alone 3 6 3 3 3 3 5 5 3 3
three_of_five alone 5 5 10 5 5 5 5 5 5 10
five_of_five alone 2 2 3 2 2 2 5 2 5 4
six_of_five alone 0 0 0 0 0 0 0 0 0 0
leaf not 1 1 1 1 1 1 1 1 1 2
leaf name 1 1 1 1 1 1 1 1 1 1
leaf and 2 4 2 2 2 2 2 2 2 2
leaf or 1 2 1 1 1 1 2 2 2 1
leaf xor 2 2 4 2 2 2 2 2 2 4
leaf after_xor 2 2 4 2 2 2 2 2 2 4
not and 1 1 2 1 1 1 2 2 2 2
not and_no 1 1 2 1 1 1 2 2 2 2
not or 2 4 2 2 2 2 2 2 2 2
not or_no 2 2 4 2 2 2 2 2 2 4
not xor 2 4 2 2 2 2 2 2 2 2
not xor_no 2 2 4 2 2 2 2 2 2 4
function not 1 1 1 1 1 1 1 1 1 2
function and 2 4 2 2 2 2 2 2 2 2
function or 1 2 1 1 1 1 2 2 2 1
function xor 2 2 4 2 2 2 2 2 2 4
deep_left not 5 5 10 5 5 5 5 5 5 10
deep_left name 5 10 5 5 5 5 5 5 5 5
deep_left and 6 12 6 6 6 6 6 6 6 6
deep_left or 5 10 5 5 5 5 6 6 6 5
deep_left xor 6 6 12 6 6 6 6 6 6 12
deep_left after_xor 6 6 12 6 6 6 6 6 6 12
each not 2 3 2 2 2 2 3 3 2 2
each name 2 2 3 2 2 2 3 2 3 4
each and 2 2 4 2 2 2 4 3 4 4
each or 3 6 3 3 3 3 4 3 4 3
each xor 3 6 3 3 3 3 4 4 4 3
each after_xor 3 6 3 3 3 3 3 3 3 3
at_least not 3 3 6 3 3 3 3 3 3 6
at_least name 3 6 3 3 3 3 3 3 3 3
at_least and 4 8 4 4 4 4 4 4 4 4
at_least or 3 6 3 3 3 3 4 4 4 3
at_least xor 4 4 8 4 4 4 4 4 4 8
at_least after_xor 4 4 8 4 4 4 4 4 4 8
";

fn around_of(name: &str) -> Around {
    match name {
        "not" => Around::Not,
        "name" => Around::Name,
        "and" => Around::And,
        "or" => Around::Or,
        "xor" => Around::Xor,
        "after_xor" => Around::AfterXor,
        _ => Around::Alone,
    }
}

// Whether the predicate is asked as often as the numbers say.
fn has_counts(rt: &impl Host, name: &str, around: &str, numbers: &str) -> bool {
    let cell = Cell::new(0);
    let pair = name.strip_prefix("and_");
    let denied = around.strip_suffix("_no");
    let asked = Asked {
        cell: &cell,
        is_pair: pair.is_some(),
        around: around_of(denied.unwrap_or(around)),
        beside: denied.is_none(),
    };
    let Some(counts) = counts_of(rt, pair.unwrap_or(name), asked) else {
        return false;
    };
    let mut written = String::new(rt.alloc());
    for count in counts {
        write!(written, " {count}").expect(rt, "memory");
    }
    written.as_str().trim() == numbers
}

fn is_row_right(rt: &impl Host, row: &str) -> bool {
    let Some((name, rest)) = row.split_once(' ') else {
        return false;
    };
    let Some((around, numbers)) = rest.split_once(' ') else {
        return false;
    };
    has_counts(rt, name, around, numbers)
}

#[test]
fn rows_of_counts(rt: HostRuntime) {
    for row in ROWS.lines() {
        assert!(rt; is_row_right(&rt, row), "{row}");
    }
}
