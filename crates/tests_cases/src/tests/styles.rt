//! Cases rendered in each style, against lines written by hand.
use crate::tests::made::{Host, owned};
use predicates::reflection::{Case, Product, render};
use predicates_style::{Style, render_styled};

const TWELVE_LINES: &str = "any(var >= 5) = false
  item: var >= 5 = false
  item: var >= 5 = false
  item: var >= 5 = false
  item: var >= 5 = false
  item: var >= 5 = false
  item: var >= 5 = false
  item: var >= 5 = false
  item: var >= 5 = false
  item: var >= 5 = false
  item: var >= 5 = false
  .. 99990 more
";

const ONE_CHILD_EACH: &str = "all = true
  first: either = true
    left: a = true
    .. 1 more
  .. 1 more
";

fn node(rt: &impl Host, text: &str, outcome: bool) -> Case {
    Case::new(rt.alloc(), Some(owned(rt, text)), outcome)
}

// A node with so many children, all leaves.
fn flat(rt: &impl Host, members: usize) -> Case {
    let mut case = node(rt, "any(var >= 5)", false);
    for _ in 0..members {
        case = case
            .add_child("item", node(rt, "var >= 5", false))
            .expect(rt, "memory");
    }
    case
}

// Two levels of two children each.
fn nested(rt: &impl Host) -> Case {
    let either = node(rt, "either", true)
        .add_child("left", node(rt, "a", true))
        .expect(rt, "memory")
        .add_child("right", node(rt, "b", true))
        .expect(rt, "memory");
    node(rt, "all", true)
        .add_child("first", either)
        .expect(rt, "memory")
        .add_child("second", node(rt, "c", true))
        .expect(rt, "memory")
}

fn with_value(rt: &impl Host, name: &'static str, value: &str) -> Case {
    let product = Product::new(name, owned(rt, value));
    let case = node(rt, "var == \"a\nb\"", false).add_product(product);
    case.expect(rt, "memory")
}

// Whether the case is rendered so in the style.
fn renders(rt: &impl Host, style: Style, case: Case, expected: &str) -> bool {
    let lines = render_styled(rt.alloc(), &style, &case).expect(rt, "memory");
    lines.as_str() == expected
}

#[test]
fn ten_children_of_many(rt: HostRuntime) {
    let style = Style {
        children: Some(10),
        ..Style::new()
    };
    assert!(rt; renders(&rt, style, flat(&rt, 100_000), TWELVE_LINES));
}

#[test]
fn one_child_of_each_node(rt: HostRuntime) {
    let style = Style {
        children: Some(1),
        ..Style::new()
    };
    assert!(rt; renders(&rt, style, nested(&rt), ONE_CHILD_EACH));
}

#[test]
fn values_cut_by_characters(rt: HostRuntime) {
    let style = Style {
        characters: Some(4),
        ..Style::new()
    };
    let cut = "var == \"a\nb\" = false\n  - var (first 4 of 6 characters): aäöü\n";
    assert!(rt; renders(&rt, style, with_value(&rt, "var", "aäöüßb"), cut));
    let whole = "var == \"a\nb\" = false\n  - var: äöüß\n";
    assert!(rt; renders(&rt, style, with_value(&rt, "var", "äöüß"), whole));
}

#[test]
fn control_characters_escaped(rt: HostRuntime) {
    let style = Style {
        escapes: true,
        ..Style::new()
    };
    let case = with_value(&rt, "v\ta", "\u{1b}[0m\r\u{7f}\u{85}\\ä\u{0}");
    let lines = "var == \"a\\nb\" = false\n  - v\\ta: \\u{1b}[0m\\r\\u{7f}\\u{85}\\ä\\u{0}\n";
    assert!(rt; renders(&rt, style, case, lines));
}

// A character between `a` and `b`, and how it is written where escapes are wanted: those that set
// the direction of writing, the separators and the byte order mark, and beside each run of them what
// is written as it is.
const CHARACTERS: [(&str, &str); 19] = [
    ("a\u{61b}b", "a\u{61b}b"),
    ("a\u{61c}b", "a\\u{61c}b"),
    ("a\u{61d}b", "a\u{61d}b"),
    ("a\u{200d}b", "a\u{200d}b"),
    ("a\u{200e}b", "a\\u{200e}b"),
    ("a\u{200f}b", "a\\u{200f}b"),
    ("a\u{2010}b", "a\u{2010}b"),
    ("a\u{2027}b", "a\u{2027}b"),
    ("a\u{2028}b", "a\\u{2028}b"),
    ("a\u{2029}b", "a\\u{2029}b"),
    ("a\u{202a}\u{202b}b", "a\\u{202a}\\u{202b}b"),
    ("a\u{202c}\u{202d}b", "a\\u{202c}\\u{202d}b"),
    ("a\u{202e}b", "a\\u{202e}b"),
    ("a\u{202f}b", "a\u{202f}b"),
    ("a\u{2065}b", "a\u{2065}b"),
    ("a\u{2066}\u{2067}b", "a\\u{2066}\\u{2067}b"),
    ("a\u{2068}\u{2069}b", "a\\u{2068}\\u{2069}b"),
    ("a\u{206a}b", "a\u{206a}b"),
    ("\u{fefe}\u{feff}\u{ff00}", "\u{fefe}\\u{feff}\u{ff00}"),
];

fn is_escaped(rt: &impl Host, text: &str, written: &str) -> bool {
    let style = Style {
        escapes: true,
        ..Style::new()
    };
    let lines = format!(in rt.alloc(); "{written} = true\n").expect(rt, "memory");
    renders(rt, style, node(rt, text, true), lines.as_str())
}

#[test]
fn characters_that_turn_or_hide_escaped(rt: HostRuntime) {
    for (text, written) in CHARACTERS {
        assert!(rt; is_escaped(&rt, text, written), "{written}");
    }
}

#[test]
fn escapes_after_the_cut(rt: HostRuntime) {
    let style = Style {
        characters: Some(2),
        escapes: true,
        ..Style::new()
    };
    let lines = "var == \"a\\nb\" = false\n  - var (first 2 of 3 characters): a\\n\n";
    assert!(rt; renders(&rt, style, with_value(&rt, "var", "a\nb"), lines));
}

#[test]
fn results_in_colours(rt: HostRuntime) {
    let style = Style {
        colours: true,
        ..Style::new()
    };
    let green = "a = \u{1b}[32mtrue\u{1b}[0m\n";
    assert!(rt; renders(&rt, style, node(&rt, "a", true), green));
    let red = "a = \u{1b}[31mfalse\u{1b}[0m\n";
    assert!(rt; renders(&rt, style, node(&rt, "a", false), red));
}

fn is_rendered_plainly(rt: &impl Host) -> bool {
    let lines = render(rt.alloc(), &nested(rt)).expect(rt, "memory");
    renders(rt, Style::default(), nested(rt), lines.as_str())
}

#[test]
fn as_rendered_without_a_style(rt: HostRuntime) {
    assert!(rt; is_rendered_plainly(&rt));
}
