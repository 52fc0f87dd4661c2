//! Rules that are read, and faults with their lines.
mod printing;

use std::alloc::Global;
use std::process::Abort;
use vet_rules::error::{Reason, RulesError};
use vet_rules::expression::Expression;
use vet_rules::fault::Fault;
use vet_rules::rule::{Rule, read_faults, read_rules, without_mark};

const SAMPLE: &str =
    "adult:  /age >= 18\nknown:  /name starts_with \"A\" or /name == \"Zoe\"\nseated: /seat exists and not /seat in [13, 17]\nlines:  each /lines (/quantity >= 1 and /sku matches \"^[A-Z]{3}$\")\n";

// A line for each of the rules.
fn lines_of(rt: &impl Abort, alloc: Global, rules: &[Rule]) -> String {
    let mut out = String::new(alloc);
    for rule in rules {
        writeln!(out, "{rule:?}").expect(rt, "memory");
    }
    out
}

// What the rules of a text are, or why there are none.
fn shown(rt: &impl Abort, alloc: Global, text: &str) -> String {
    match read_rules(alloc, text.as_bytes()) {
        Ok(rules) => lines_of(rt, alloc, rules.as_slice()),
        Err(error) => error.to_string(alloc).expect(rt, "memory"),
    }
}

fn shows(rt: &impl Abort, alloc: Global, text: &str, expected: &str) -> bool {
    shown(rt, alloc, text).as_str() == expected
}

// Whether each text shows what stands beside it.
fn all_shown(rt: &impl Abort, alloc: Global, rows: &[(&str, &str)]) {
    for (text, expected) in rows {
        let same = shows(rt, alloc, text, expected);
        assert!(rt; same, "{text}");
    }
}

// The two halves of a row of a line.
fn halves(row: &str) -> (&str, &str) {
    row.split_once(" => ").unwrap_or((row, ""))
}

// Whether each line has a text and what it shows.
fn all_refused(rt: &impl Abort, alloc: Global, rows: &str) {
    for row in rows.lines() {
        let (text, expected) = halves(row);
        let same = row.is_empty() || shows(rt, alloc, text, expected);
        assert!(rt; same, "{row}");
    }
}

// A text, and the rules that it says, as `Debug` shows them: their lines and names.
const READ_LINES: [(&str, &str); 7] = [
    (
        "\u{feff}# a\na: /b == 1",
        "Rule { name: \"a\", expression: Test(\"/b\", Compare(Equal, Natural(1))) }\n",
    ),
    (
        SAMPLE,
        "Rule { name: \"adult\", expression: Test(\"/age\", Compare(AtLeast, Natural(18))) }\nRule { name: \"known\", expression: Joined(Or, [Test(\"/name\", Relate(StartsWith, \"A\")), Test(\"/name\", Compare(Equal, Text(\"Zoe\")))]) }\nRule { name: \"seated\", expression: Joined(And, [Test(\"/seat\", Is(Exists)), Not(Test(\"/seat\", In([Natural(13), Natural(17)])))]) }\nRule { name: \"lines\", expression: Quantified(Each, \"/lines\", Joined(And, [Test(\"/quantity\", Compare(AtLeast, Natural(1))), Test(\"/sku\", Relate(Matches, \"^[A-Z]{3}$\"))])) }\n",
    ),
    ("", ""),
    ("# nothing\r\n\t \r\n   # more", ""),
    (
        "\tü-1.b:/a==1# and /b==2\r\n",
        "Rule { name: \"ü-1.b\", expression: Test(\"/a\", Compare(Equal, Natural(1))) }\n",
    ),
    (
        "same: /a <= 1\nSame: /a > 1",
        "Rule { name: \"same\", expression: Test(\"/a\", Compare(AtMost, Natural(1))) }\nRule { name: \"Same\", expression: Test(\"/a\", Compare(Above, Natural(1))) }\n",
    ),
    (
        "\"a guest: 18 #1\":/a == 1 # b\n\t\"\\u00e9\\\"\": / exists\n\"c\": / exists",
        "Rule { name: \"a guest: 18 #1\", expression: Test(\"/a\", Compare(Equal, Natural(1))) }\nRule { name: \"é\\\"\", expression: Test(\"\", Is(Exists)) }\nRule { name: \"c\", expression: Test(\"\", Is(Exists)) }\n",
    ),
];

#[test]
fn reads_rules(rt: HostRuntime) {
    all_shown(&rt, rt.alloc(), &READ_LINES)
}

// The same of rules with tests of each kind.
const READ_TESTS: [(&str, &str); 9] = [
    (
        "all: / != -9223372036854775808 xor / < 18446744073709551615",
        "Rule { name: \"all\", expression: Joined(Xor, [Test(\"\", Compare(Unequal, Negative(-9223372036854775808))), Test(\"\", Compare(Below, Natural(18446744073709551615)))]) }\n",
    ),
    (
        "q: any /x~1y (/ in [] xor / in [true, false, null, -1, \"#\\\"\"] and / ends_with \"\\u00e9\\ud83d\\ude00\" and / contains \"\\\\\\/\")",
        "Rule { name: \"q\", expression: Quantified(Any, \"/x~1y\", Joined(Xor, [Test(\"\", In([])), Joined(And, [Test(\"\", In([Boolean(true), Boolean(false), Null, Negative(-1), Text(\"#\\\"\")])), Test(\"\", Relate(EndsWith, \"é😀\")), Test(\"\", Relate(Contains, \"\\\\/\"))])])) }\n",
    ),
    (
        "span: /start <= /end and each /a~1b (/ != /c and /d>/)",
        "Rule { name: \"span\", expression: Joined(And, [Test(\"/start\", CompareWith(AtMost, \"/end\")), Quantified(Each, \"/a~1b\", Joined(And, [Test(\"\", CompareWith(Unequal, \"/c\")), Test(\"/d\", CompareWith(Above, \"\"))]))]) }\n",
    ),
    (
        "long: /b length >= 3 or / length==18446744073709551615 or not /length length < 0",
        "Rule { name: \"long\", expression: Joined(Or, [Test(\"/b\", Length(AtLeast, 3)), Test(\"\", Length(Equal, 18446744073709551615)), Not(Test(\"/length\", Length(Below, 0)))]) }\n",
    ),
    (
        "is: at least 1 of (/is is text, / is number, /a is whole, /b is bool, /c is array, /d is object, /e is null)",
        "Rule { name: \"is\", expression: AtLeast(1, [Test(\"/is\", IsOf(Text)), Test(\"\", IsOf(Number)), Test(\"/a\", IsOf(Whole)), Test(\"/b\", IsOf(Boolean)), Test(\"/c\", IsOf(Array)), Test(\"/d\", IsOf(Object)), Test(\"/e\", IsOf(Null))]) }\n",
    ),
    (
        "part: / in [1.5, -0, 18446744073709551616, -9223372036854775809, 1e3, -2.50E-1, 0.10] and / < 1E+2",
        "Rule { name: \"part\", expression: Joined(And, [Test(\"\", In([Decimal { text: \"1.5\", value: 1.5 }, Decimal { text: \"-0\", value: -0.0 }, Decimal { text: \"18446744073709551616\", value: 1.8446744073709552e19 }, Decimal { text: \"-9223372036854775809\", value: -9.223372036854776e18 }, Decimal { text: \"1e3\", value: 1000.0 }, Decimal { text: \"-2.50E-1\", value: -0.25 }, Decimal { text: \"0.10\", value: 0.1 }])), Test(\"\", Compare(Below, Decimal { text: \"1E+2\", value: 100.0 }))]) }\n",
    ),
    (
        "c: each /lines (/currency == ^/currency and ^/ exists) or ^/a/b^c == ^/",
        "Rule { name: \"c\", expression: Joined(Or, [Quantified(Each, \"/lines\", Joined(And, [Test(\"/currency\", CompareWith(Equal, \"^/currency\")), Test(\"^\", Is(Exists))])), Test(\"^/a/b^c\", CompareWith(Equal, \"^\"))]) }\n",
    ),
    (
        "q: \"/Order ID\" == 3 and any \"/a b\" (\"^/x#\" exists) and keys \"/\" in [] and \"/b\" == \"/b\"",
        "Rule { name: \"q\", expression: Joined(And, [Test(\"/Order ID\", Compare(Equal, Natural(3))), Quantified(Any, \"/a b\", Test(\"^/x#\", Is(Exists))), Test(\"\", KeysIn([])), Test(\"/b\", Compare(Equal, Text(\"/b\")))]) }\n",
    ),
    (
        "k: keys /a in [\"b\", \"c\"] or keys ^/ in[ ] and not keys / in[\"\\u00e9\",\"b\",\"b\"]",
        "Rule { name: \"k\", expression: Joined(Or, [Test(\"/a\", KeysIn([\"b\", \"c\"])), Joined(And, [Test(\"^\", KeysIn([])), Not(Test(\"\", KeysIn([\"é\", \"b\", \"b\"])))])]) }\n",
    ),
];

#[test]
fn reads_tests_of_rules(rt: HostRuntime) {
    all_shown(&rt, rt.alloc(), &READ_TESTS)
}

// The same of rules that join, count or deny tests.
const READ_JOINS: [(&str, &str); 9] = [
    (
        "p: /a exists or /b missing and /c is_empty or (/d exists or /e exists) and not (/f exists and /g exists)",
        "Rule { name: \"p\", expression: Joined(Or, [Test(\"/a\", Is(Exists)), Joined(And, [Test(\"/b\", Is(Missing)), Test(\"/c\", Is(IsEmpty))]), Joined(And, [Joined(Or, [Test(\"/d\", Is(Exists)), Test(\"/e\", Is(Exists))]), Not(Joined(And, [Test(\"/f\", Is(Exists)), Test(\"/g\", Is(Exists))]))])]) }\n",
    ),
    (
        "not: not not /not exists",
        "Rule { name: \"not\", expression: Not(Not(Test(\"/not\", Is(Exists)))) }\n",
    ),
    (
        "two: at least 2 of (/a exists, /b exists or /c exists, not /d exists)",
        "Rule { name: \"two\", expression: AtLeast(2, [Test(\"/a\", Is(Exists)), Joined(Or, [Test(\"/b\", Is(Exists)), Test(\"/c\", Is(Exists))]), Not(Test(\"/d\", Is(Exists)))]) }\n",
    ),
    (
        "items: at least 3 /lines (/price > 0) and not at least 0 / (/ exists)",
        "Rule { name: \"items\", expression: Joined(And, [Quantified(AtLeast(3), \"/lines\", Test(\"/price\", Compare(Above, Natural(0)))), Not(Quantified(AtLeast(0), \"\", Test(\"\", Is(Exists))))]) }\n",
    ),
    (
        "most:at\tleast 18446744073709551615 of(/a==1)or at least 0 of(at least 1 of(/b==1,/c==1),/d==1)",
        "Rule { name: \"most\", expression: Joined(Or, [AtLeast(18446744073709551615, [Test(\"/a\", Compare(Equal, Natural(1)))]), AtLeast(0, [AtLeast(1, [Test(\"/b\", Compare(Equal, Natural(1))), Test(\"/c\", Compare(Equal, Natural(1)))]), Test(\"/d\", Compare(Equal, Natural(1)))])]) }\n",
    ),
    (
        "at: /at exists\nleast: /least == \"at least\"\nof: /of in [\"of\"]",
        "Rule { name: \"at\", expression: Test(\"/at\", Is(Exists)) }\nRule { name: \"least\", expression: Test(\"/least\", Compare(Equal, Text(\"at least\"))) }\nRule { name: \"of\", expression: Test(\"/of\", In([Text(\"of\")])) }\n",
    ),
    (
        "i: if /a exists then if /b exists and /c exists then /d exists or /e exists",
        "Rule { name: \"i\", expression: Implies(Test(\"/a\", Is(Exists)), Implies(Joined(And, [Test(\"/b\", Is(Exists)), Test(\"/c\", Is(Exists))]), Joined(Or, [Test(\"/d\", Is(Exists)), Test(\"/e\", Is(Exists))]))) }\n",
    ),
    (
        "if: (if/if exists then/then exists)or each / (if if / is text then /a exists then / exists)",
        "Rule { name: \"if\", expression: Joined(Or, [Implies(Test(\"/if\", Is(Exists)), Test(\"/then\", Is(Exists))), Quantified(Each, \"\", Implies(Implies(Test(\"\", IsOf(Text)), Test(\"/a\", Is(Exists))), Test(\"\", Is(Exists))))]) }\n",
    ),
    (
        "keys: each /keys (keys/ in[\"keys\"])\nin: if keys ^/a in [\"in\"] then at least 1 of (keys / in [], / is null)",
        "Rule { name: \"keys\", expression: Quantified(Each, \"/keys\", Test(\"\", KeysIn([\"keys\"]))) }\nRule { name: \"in\", expression: Implies(Test(\"^/a\", KeysIn([\"in\"])), AtLeast(1, [Test(\"\", KeysIn([])), Test(\"\", IsOf(Null))])) }\n",
    ),
];

#[test]
fn reads_joins_of_rules(rt: HostRuntime) {
    all_shown(&rt, rt.alloc(), &READ_JOINS)
}

// A text in which a name stands twice, and what is told of it.
const REPEATED: [(&str, &str); 7] = [
    (
        "same: /a <= 1\nsame: /a > 1",
        "line 2, column 1: the name `same` stands on line 1 already",
    ),
    (
        "# b\na: / exists\n\"b c\": / exists\r\n \"\\u0061\": /b exists",
        "line 4, column 2: the name `a` stands on line 2 already",
    ),
    (
        "ü-1.b: /a exists\n\tü-1.b:/b exists\nc: /d = 1",
        "line 2, column 2: the name `ü-1.b` stands on line 1 already",
    ),
    (
        "a: /b exists\nb: /b exists\nc: /b exists\nb: / exists\na: / exists",
        "line 4, column 1: the name `b` stands on line 2 already",
    ),
    (
        "a: /b exists\nc: /d = 1\na: / exists",
        "line 2, column 7: expected a word, an operator, a path or a literal, found `=`; did you mean `==`?",
    ),
    (
        "a: /b exists\na: /d = 1",
        "line 2, column 7: expected a word, an operator, a path or a literal, found `=`; did you mean `==`?",
    ),
    (
        "\"no guest may be below eighteen \\\"\": / exists\n\"no guest may be below eighteen \\\"\":/ exists",
        "line 2, column 1: the name `no guest may be below eighteen \"` stands on line 1 already",
    ),
];

#[test]
fn tells_both_lines_of_a_name(rt: HostRuntime) {
    all_shown(&rt, rt.alloc(), &REPEATED)
}

// A text, and the line that says why it has no rules: of names, of expressions, of literals, of
// thresholds, of conditions, of implications.
const REFUSED_NAMES: &str = r#"
"a\n": / exists => line 1, column 1: expected the name of a rule, found `"a\n"`
"a" / exists => line 1, column 4: expected `:` behind the name of a rule, found `/`
"a: / exists => line 1, column 1: expected the quote that ends the text, found `"a: / exists`
"\x": / exists => line 1, column 1: expected a text as JSON writes it, found `"\x"`; a backslash is written twice
an = /b exists => line 1, column 3: expected `:` behind the name of a rule, found `=`
"#;

const REFUSED_EXPRESSIONS: &str = "
a: or => line 1, column 4: expected a path, `not`, `each`, `any`, `at`, `keys`, `if` or `(`, found `or`
a:   # later => line 1, column 6: expected a path, `not`, `each`, `any`, `at`, `keys`, `if` or `(`, found a comment
a: each ( => line 1, column 9: expected a path, found `(`
a: /b 1 => line 1, column 7: expected an operator, `exists`, `missing`, `is_empty`, `length` or `is`, found `1`
a: /b == [1] => line 1, column 10: expected a literal or a path, found `[`
a: /b in [1, ] => line 1, column 14: expected a literal, found `]`
a: /b matches 1 => line 1, column 15: expected a text in quotes, found `1`; a text stands in double quotes
a: /b in 1 => line 1, column 10: expected `[`, found `1`
a: /b in [1 2] => line 1, column 13: expected `,` or `]`, found `2`
a: any /b /c => line 1, column 11: expected `(`, found `/c`
a: (/b exists => line 1, column 14: expected `)`, `or`, `xor` or `and`, found the end of the line
a: /b exists) => line 1, column 13: expected the end of the line, `or`, `xor` or `and`, found `)`
a: /b exists /c exists => line 1, column 14: expected the end of the line, `or`, `xor` or `and`, found `/c`
a: /b = 1 => line 1, column 7: expected a word, an operator, a path or a literal, found `=`; did you mean `==`?
a: /b exist => line 1, column 7: expected a word, an operator, a path or a literal, found `exist`; did you mean `exists`?
a: ü => line 1, column 4: expected a word, an operator, a path or a literal, found `ü`; a path begins with `/`
";

const REFUSED_LITERALS: &str = r#"
a: /b == 01 => line 1, column 10: expected a number as JSON writes it, in the range of a 64-bit float, found `01`
a: /b == 1. => line 1, column 10: expected a number as JSON writes it, in the range of a 64-bit float, found `1.`
a: /b in [1e308, -1e309] => line 1, column 18: expected a number as JSON writes it, in the range of a 64-bit float, found `-1e309`
a: /b == "\x" => line 1, column 10: expected a text as JSON writes it, found `"\x"`; a backslash is written twice
a: /b == "c\" # d => line 1, column 10: expected the quote that ends the text, found `"c\" # d`
"#;

const REFUSED_THRESHOLDS: &str = r#"
a: at 2 of (/b exists) => line 1, column 7: expected `least`, found `2`
a: least 2 of (/b exists) => line 1, column 4: expected a path, `not`, `each`, `any`, `at`, `keys`, `if` or `(`, found `least`
a: at least of (/b exists) => line 1, column 13: expected a whole number from 0 to 2^64 - 1, found `of`
a: at least /b (/ exists) => line 1, column 13: expected a whole number from 0 to 2^64 - 1, found `/b`
a: at least -1 of (/b exists) => line 1, column 13: expected a whole number from 0 to 2^64 - 1, found `-1`
a: at least "2" of (/b exists) => line 1, column 13: expected a whole number from 0 to 2^64 - 1, found `"2"`; a number stands without quotes
a: at least 18446744073709551616 of (/b exists) => line 1, column 13: expected a whole number from 0 to 2^64 - 1, found `18446744073709551616`
a: at least 1.5 /b (/ exists) => line 1, column 13: expected a whole number from 0 to 2^64 - 1, found `1.5`
a: at least 18.0 of (/b exists) => line 1, column 13: expected a whole number from 0 to 2^64 - 1, found `18.0`
a: at least 2 (/b exists) => line 1, column 15: expected `of` or a path, found `(`
a: at least 2 => line 1, column 14: expected `of` or a path, found the end of the line
a: at least 2 of /b exists => line 1, column 18: expected `(`, found `/b`
a: at least 2 of () => line 1, column 19: expected a path, `not`, `each`, `any`, `at`, `keys`, `if` or `(`, found `)`
a: at least 2 of (/b exists,) => line 1, column 29: expected a path, `not`, `each`, `any`, `at`, `keys`, `if` or `(`, found `)`
a: at least 2 of (, /b exists) => line 1, column 19: expected a path, `not`, `each`, `any`, `at`, `keys`, `if` or `(`, found `,`
a: at least 2 of (/b exists, /c exists => line 1, column 39: expected `,`, `)`, `or`, `xor` or `and`, found the end of the line
a: at least 2 of (/b exists /c exists) => line 1, column 29: expected `,`, `)`, `or`, `xor` or `and`, found `/c`
a: at least 2 /b / exists => line 1, column 18: expected `(`, found `/`
a: at least 2 /b (/ exists, / exists) => line 1, column 27: expected `)`, `or`, `xor` or `and`, found `,`
"#;

const REFUSED_CONDITIONS: &str = "
a: /b >= ( => line 1, column 10: expected a literal or a path, found `(`
a: /b in [/c] => line 1, column 11: expected a literal, found `/c`
a: /b matches /c => line 1, column 15: expected a text in quotes, found `/c`
a: /b length => line 1, column 13: expected `==`, `!=`, `<`, `<=`, `>` or `>=`, found the end of the line
a: /b length 3 => line 1, column 14: expected `==`, `!=`, `<`, `<=`, `>` or `>=`, found `3`
a: /b length in [3] => line 1, column 14: expected `==`, `!=`, `<`, `<=`, `>` or `>=`, found `in`
a: /b length > => line 1, column 15: expected a whole number from 0 to 2^64 - 1, found the end of the line
a: /b length > -1 => line 1, column 16: expected a whole number from 0 to 2^64 - 1, found `-1`
a: /b length > 1.0 => line 1, column 16: expected a whole number from 0 to 2^64 - 1, found `1.0`
a: /b length > /c => line 1, column 16: expected a whole number from 0 to 2^64 - 1, found `/c`
a: length > 1 => line 1, column 4: expected a path, `not`, `each`, `any`, `at`, `keys`, `if` or `(`, found `length`; a path begins with `/`
a: /b is => line 1, column 9: expected `text`, `number`, `whole`, `bool`, `array`, `object` or `null`, found the end of the line
a: /b is 1 => line 1, column 10: expected `text`, `number`, `whole`, `bool`, `array`, `object` or `null`, found `1`
a: /b is true => line 1, column 10: expected `text`, `number`, `whole`, `bool`, `array`, `object` or `null`, found `true`
a: /b is not text => line 1, column 10: expected `text`, `number`, `whole`, `bool`, `array`, `object` or `null`, found `not`; `not` stands before the path
a: /b is text text => line 1, column 15: expected the end of the line, `or`, `xor` or `and`, found `text`
";

const REFUSED_IMPLICATIONS: &str = "
a: if /b exists => line 1, column 16: expected `then`, `or`, `xor` or `and`, found the end of the line
a: if then /b exists => line 1, column 7: expected a path, `not`, `each`, `any`, `at`, `keys`, `if` or `(`, found `then`
a: if /b exists then => line 1, column 21: expected a path, `not`, `each`, `any`, `at`, `keys`, `if` or `(`, found the end of the line
a: if /b exists then /c exists then /d exists => line 1, column 32: expected the end of the line, `or`, `xor` or `and`, found `then`
a: (if /b exists then /c exists then /d exists) => line 1, column 33: expected `)`, `or`, `xor` or `and`, found `then`
a: /b exists or if /c exists then /d exists => line 1, column 17: expected a path, `not`, `each`, `any`, `at`, `keys` or `(`, found `if`; `if` needs parentheses here
a: not if /c exists then /d exists => line 1, column 8: expected a path, `not`, `each`, `any`, `at`, `keys` or `(`, found `if`; `if` needs parentheses here
a: if == 1 => line 1, column 7: expected a path, `not`, `each`, `any`, `at`, `keys`, `if` or `(`, found `==`
a: /b text => line 1, column 7: expected an operator, `exists`, `missing`, `is_empty`, `length` or `is`, found `text`
";

// Texts of several lines, and of characters that do not print.
const REFUSED_LINES: [(&str, &str); 5] = [
    (
        "a: / exists\n\"\": / exists",
        "line 2, column 1: expected the name of a rule, found `\"\"`",
    ),
    (
        " \"\u{a0}\": / exists",
        "line 1, column 2: expected the name of a rule, found `\"\\u{a0}\"`",
    ),
    (
        "  a / exists",
        "line 1, column 4: expected `:` behind the name of a rule, found `/`",
    ),
    (
        "\n\na: /b == ",
        "line 3, column 10: expected a literal or a path, found the end of the line",
    ),
    (
        "a:\tnot\t/b\tin\t[ 1 , 2 ,\t3\t",
        "line 1, column 26: expected `,` or `]`, found the end of the line",
    ),
];

#[test]
fn says_what_was_expected(rt: HostRuntime) {
    all_shown(&rt, rt.alloc(), &REFUSED_LINES);
    all_refused(&rt, rt.alloc(), REFUSED_NAMES);
    all_refused(&rt, rt.alloc(), REFUSED_EXPRESSIONS)
}

#[test]
fn says_what_was_expected_of_literals(rt: HostRuntime) {
    all_refused(&rt, rt.alloc(), REFUSED_LITERALS)
}

#[test]
fn says_what_was_expected_of_thresholds(rt: HostRuntime) {
    all_refused(&rt, rt.alloc(), REFUSED_THRESHOLDS)
}

#[test]
fn says_what_was_expected_of_conditions(rt: HostRuntime) {
    all_refused(&rt, rt.alloc(), REFUSED_CONDITIONS)
}

#[test]
fn says_what_was_expected_of_implications(rt: HostRuntime) {
    all_refused(&rt, rt.alloc(), REFUSED_IMPLICATIONS)
}

// The same of a rule that asks for the keys of an object.
const REFUSED_KEYS: &str = r#"
a: keys => line 1, column 8: expected a path, found the end of the line
a: keys in ["b"] => line 1, column 9: expected a path, found `in`
a: keys (/b exists) => line 1, column 9: expected a path, found `(`
a: keys /b => line 1, column 11: expected `in`, found the end of the line
a: keys /b == 1 => line 1, column 12: expected `in`, found `==`
a: keys /b in => line 1, column 14: expected `[`, found the end of the line
a: keys /b in "c" => line 1, column 15: expected `[`, found `"c"`
a: keys /b in [1] => line 1, column 16: expected a text in quotes, found `1`; a text stands in double quotes
a: keys /b in [null] => line 1, column 16: expected a text in quotes, found `null`
a: keys /b in [ => line 1, column 16: expected a text in quotes, found the end of the line
a: keys /b in ["c",] => line 1, column 20: expected a text in quotes, found `]`
a: keys /b in ["c", true] => line 1, column 21: expected a text in quotes, found `true`
a: keys /b in ["c" "d"] => line 1, column 20: expected `,` or `]`, found `"d"`
a: keys /b in ["c" => line 1, column 19: expected `,` or `]`, found the end of the line
a: keys /b in ["c"] == 1 => line 1, column 21: expected the end of the line, `or`, `xor` or `and`, found `==`
a: /b keys in ["c"] => line 1, column 7: expected an operator, `exists`, `missing`, `is_empty`, `length` or `is`, found `keys`; `keys` stands before the path
"#;

#[test]
fn says_what_was_expected_of_keys(rt: HostRuntime) {
    all_refused(&rt, rt.alloc(), REFUSED_KEYS)
}

// A slip of a rule, and what is told behind what was expected.
const SLIPS_OF_OPERATORS: &str = "
/b=1 => found `=`; did you mean `==`?
/b === 1 => found `===`; did you mean `==`?
/b =< 1 => found `=<`; did you mean `<=`?
/b <> 1 => found `<>`; did you mean `!=`?
/b exists && /c exists => found `&&`; did you mean `and`?
/b exists &&/c exists => found `&&/c`; did you mean `and`?
/b exists || /c exists => found `||`; did you mean `or`?
!/b exists => found `!`; did you mean `not`?
/b exists AND /c exists => found `AND`; did you mean `and`?
/b exists Or /c exists => found `Or`; did you mean `or`?
NOT /b exists => found `NOT`; did you mean `not`?
/b == True => found `True`; did you mean `true`?
/b == NULL => found `NULL`; did you mean `null`?
/b == nil => found `nil`; did you mean `null`?
/b == 'Zoe' => found `'Zoe'`; a text stands in double quotes
/b == “Zoe” => found `“Zoe”`; a text stands in double quotes
/b == Zoe => found `Zoe`; a text stands in double quotes
/b contains Zoe => found `Zoe`; a text stands in double quotes
";

const SLIPS_OF_WORDS: &str = r#"
x == 1 => found `x`; a path begins with `/`
note==1 => found `note`; a path begins with `/`
$.x == 1 => found `$.x`; a path begins with `/`
any lines (/b exists) => found `lines`; a path begins with `/`
/b startswith "c" => found `startswith`; did you mean `starts_with`?
/b starts-with "c" => found `starts-with`; did you mean `starts_with`?
/b begins_with "c" => found `begins_with`; did you mean `starts_with`?
/b contians "c" => found `contians`; did you mean `contains`?
/b isEmpty => found `isEmpty`; did you mean `is_empty`?
all /b (/ exists) => found `all`; did you mean `each`?
/b exists implies /c exists => found `implies`; did you mean `if .. then`?
when /b exists then /c exists => found `when`; did you mean `if`?
IF /b exists then /c exists => found `IF`; did you mean `if`?
if b exists then /c exists => found `b`; a path begins with `/`
"#;

// The same of what other languages write before a path, or around it.
const SLIPS_OF_FRONTS: &str = r#"
none /b (/ exists) => found `none`; did you mean `not any`?
exactly 1 of (/b exists) => found `exactly`; exactly N is `at least N` and `not at least` one more
at most 2 of (/b exists) => found `most`; at most N is `not at least` one more
count /b > 1 => found `count`; a length is asked as `PATH length > 1`
size == 3 => found `size`; a path begins with `/`
if /b exists then /c exists else /d exists => found `else`; a second `if`, with `not` before A, stands for `else`
not b.c is text => found `b.c`; keys stand behind `/`, as in `/a/b`
any * (/ exists) => found `*`; `each PATH (..)` asks all items
/b == \d => found `\d`
"#;

// A line, and what is told behind what was found.
const SLIPS_OF_PLACES: &str = r#"
a: /b not in [1] => `not`; `not` stands before the path
a: /b is not null => `not`; `not` stands before the path
a: /b null => `null`; did you mean `is null`?
a: /b is is_empty => `is_empty`; `is_empty` stands without `is`
a: /b[0] == 1 => `[`; an item is named as in `/list/0`
a: /b in (1, 2) => `(`; a list stands in brackets, as in `[1, 2]`
a: 18 <= /b => `18`; the path stands before the operator
a: "Zoe" == /b => `"Zoe"`; the path stands before the operator
a: "Order ID" == 3 => `"Order ID"`; a path begins with `/`
a: /b length == "3" => `"3"`; a number stands without quotes
a: /b starts_with 3 => `3`; a text stands in double quotes
a: /b matches "\d" => `"\d"`; a backslash is written twice
two words: /b == 1 => `words`; a name of two words stands in double quotes
a : /b == 1 => `:`; no space stands before `:`
{"b":1} => `{"b":1}`; this is a record: the rules come first
[{"b":1}] => `[`; this is a record: the rules come first
a: /b == (1) => found `(`
"a" "b": / exists => found `"b"`
"#;

const SLIPS_OF_CONDITIONS: &str = r#"
/b len > 3 => found `len`; did you mean `length`?
/b is string => found `string`; did you mean `text`?
/b is int => found `int`; did you mean `whole`?
/b is boolean => found `boolean`; did you mean `bool`?
/b is arrays => found `arrays`; did you mean `array`?
/b is List => found `List`
/b between 1 and 2 => found `between`; a range is `PATH >= 1 and PATH <= 9`
/b =~ "c" => found `=`; did you mean `matches`?
/b size == 3 => found `size`; did you mean `length`?
/b count == 3 => found `count`; did you mean `length`?
/b isnull => found `isnull`; did you mean `is null`?
/b is empty => found `empty`; `is_empty` stands without `is`
/b == None => found `None`; did you mean `null`?
^b exists => found `^b`; a path begins with `/`
/b == ^ => found `^`; a path begins with `/`
any ^^/b (/ exists) => found `^^/b`; a path begins with `/`
/b == .5 => found `.5`
/b {1} => found `{1}`
/b abcdefghijklmnopqrstuvwxyzabcdefghijk exists => found `abcdefghijklmnopqrstuvwxyzabcdef...`
key /b in ["c"] => found `key`; did you mean `keys`?
keys b in ["c"] => found `b`; a path begins with `/`
keys /b in [c] => found `c`; a text stands in double quotes
"#;

// Whether the expression is refused at a place, for want of a token, and this is told behind it.
fn tells(rt: &impl Abort, alloc: Global, text: &str, told: &str) -> bool {
    let line = format!(in alloc; "a: {text}").expect(rt, "memory");
    let shown = shown(rt, alloc, &line);
    let end = format!(in alloc;
        ": expected a word, an operator, a path or a literal, {told}"
    ).expect(rt, "memory");
    shown.starts_with("line 1, column ") && shown.ends_with(end.as_str())
}

fn all_end(rt: &impl Abort, alloc: Global, rows: &str) {
    for row in rows.lines() {
        let (text, told) = halves(row);
        let is_told = row.is_empty() || shown(rt, alloc, text).ends_with(told);
        assert!(rt; is_told, "{row}");
    }
}

fn all_told(rt: &impl Abort, alloc: Global, rows: &str) {
    for row in rows.lines() {
        let (text, told) = halves(row);
        let is_told = row.is_empty() || tells(rt, alloc, text, told);
        assert!(rt; is_told, "{row}");
    }
}

#[test]
fn tells_what_was_likely_meant(rt: HostRuntime) {
    let alloc = rt.alloc();
    all_told(&rt, alloc, SLIPS_OF_OPERATORS);
    all_told(&rt, alloc, SLIPS_OF_WORDS);
    all_told(&rt, alloc, SLIPS_OF_FRONTS);
    all_end(&rt, alloc, SLIPS_OF_PLACES);
    all_told(&rt, alloc, SLIPS_OF_CONDITIONS)
}

// Whether this is why bytes have no rules, or they have some and it is `none`.
fn has_fault(rt: &impl Abort, alloc: Global, text: &[u8], expected: &str) -> bool {
    match read_rules(alloc, text) {
        Ok(_) => expected == "none",
        Err(error) => error.to_string(alloc).expect(rt, "memory").as_str() == expected,
    }
}

const RAW: [(&[u8], &str); 16] = [
    (b"\xef\xbb\xbfa: /b == 1", "none"),
    (
        b"a: /b\xc2\xa0== 1",
        "line 1, column 4: expected text in UTF-8 without no-break spaces, found `/b\\u{a0}`",
    ),
    (
        b"a\xe2\x80\xaf: /b == 1",
        "line 1, column 1: expected text in UTF-8 without no-break spaces, found `a\\u{202f}`",
    ),
    (
        b"a: /b ==\xc2\xa01",
        "line 1, column 9: expected a word, an operator, a path or a literal, found `\\u{a0}1`",
    ),
    (
        b"a: /b == \"\xc2\xa0\" and /\xc2\xa1\xc2\xbf exists #\xc2\xa0\x1b",
        "none",
    ),
    (
        b"\xef\xbb\xbfa: /b == x\n",
        "line 1, column 10: expected a word, an operator, a path or a literal, found `x`; a text stands in double quotes",
    ),
    (
        b"a: /b\x1bc == 1",
        "line 1, column 6: expected a word, an operator, a path or a literal, found `\\u{1b}c`",
    ),
    (
        b"a: /b == \x1b[31m",
        "line 1, column 10: expected a word, an operator, a path or a literal, found `\\u{1b}`",
    ),
    (
        b"a: /b matches \"[\x1b\x00",
        "line 1, column 15: expected the quote that ends the text, found `\"[\\u{1b}\\0`",
    ),
    (
        b"a: /b == \"\xc2\xa0\x07\xc2\x85\\\"",
        "line 1, column 10: expected the quote that ends the text, found `\"\\u{a0}\\u{7}\\u{85}\\\"`",
    ),
    (
        b"a\xff: /b exists",
        "line 1, column 1: expected text in UTF-8 without no-break spaces, found `a\\xff`",
    ),
    (
        b"a: /b\xff exists",
        "line 1, column 4: expected text in UTF-8 without no-break spaces, found `/b\\xff`",
    ),
    (b"# \xff", "none"),
    (
        b"a: /b == \xe2\x80\xaex",
        "line 1, column 10: expected a word, an operator, a path or a literal, found `\\u{202e}x`",
    ),
    (
        b"a: /b == e\xcc\x81",
        "line 1, column 10: expected a word, an operator, a path or a literal, found `e\\u{301}`; a text stands in double quotes",
    ),
    (
        b"a: /b == \xf0\x9f\x98\x80",
        "line 1, column 10: expected a word, an operator, a path or a literal, found `😀`",
    ),
];

#[test]
fn escapes_what_does_not_print(rt: HostRuntime) {
    for (text, expected) in &RAW {
        assert!(rt; has_fault(&rt, rt.alloc(), text, expected), "{expected}");
    }
}

// A rule of one text many times, and a test.
fn repeated(rt: &impl Abort, alloc: Global, times: u32, part: &str) -> String {
    let mut text = String::from_str(alloc, "a: ").expect(rt, "memory");
    for _ in 0..times {
        text.push_str(part).expect(rt, "memory");
    }
    text.push_str("/b exists").expect(rt, "memory");
    text
}

// How a rule of one text many times ends: the number of parts that it joins, or whether it is too
// deep.
#[derive(Clone, Copy, PartialEq, Eq, Debug)]
enum Ending {
    Joins(usize),
    Nests,
    TooDeep,
    Otherwise,
}

fn ending_of(rules: &[Rule]) -> Ending {
    match rules {
        [rule] => match &rule.expression {
            Expression::Joined(_, parts) => Ending::Joins(parts.len()),
            _ => Ending::Nests,
        },
        _ => Ending::Otherwise,
    }
}

fn ends_as(rt: &impl Abort, alloc: Global, times: u32, part: &str) -> Ending {
    let text = repeated(rt, alloc, times, part);
    let ending = match read_rules(alloc, text.as_bytes()) {
        Ok(rules) => ending_of(&rules),
        Err(RulesError::Unreadable(fault)) => match fault.reason {
            Reason::TooDeep => Ending::TooDeep,
            Reason::Expected(_) | Reason::Repeated(_) => Ending::Otherwise,
        },
        Err(_) => Ending::Otherwise,
    };
    ending
}

const SIZES: [(u32, &str, Ending); 16] = [
    (100, "not ", Ending::Nests),
    (101, "not ", Ending::TooDeep),
    (101, "any / (", Ending::TooDeep),
    (10_000, "not ", Ending::TooDeep),
    (10_000, "each /c (", Ending::TooDeep),
    (101, "at least 1 / (", Ending::TooDeep),
    (101, "at least 1 of (", Ending::TooDeep),
    (10_000, "at least 1 of (/c exists, ", Ending::TooDeep),
    (100_000, "(", Ending::TooDeep),
    (99, "if /c exists then ", Ending::Nests),
    (100, "if /c exists then ", Ending::TooDeep),
    (50, "if ", Ending::Otherwise),
    (51, "if ", Ending::TooDeep),
    (10_000, "/c exists and ", Ending::Joins(10_001)),
    (10_000, "/c exists or ", Ending::Joins(10_001)),
    (
        10_000,
        "/c exists and /d exists xor ",
        Ending::Joins(10_001),
    ),
];

#[test]
fn reads_long_rules_and_refuses_deep_ones(rt: HostRuntime) {
    for (times, part, expected) in &SIZES {
        let is_expected = ends_as(&rt, rt.alloc(), *times, part) == *expected;
        assert!(rt; is_expected, "{times} times {part}");
    }
}

// The threshold of a list, with a test many times before the last one.
fn threshold_text(rt: &impl Abort, alloc: Global, times: u32) -> String {
    let mut text = String::from_str(alloc, "a: at least 1 of (").expect(rt, "memory");
    for _ in 0..times {
        text.push_str("/c exists, ").expect(rt, "memory");
    }
    text.push_str("/b exists)").expect(rt, "memory");
    text
}

fn lists(rules: &[Rule], count: usize) -> bool {
    match rules {
        [rule] => match &rule.expression {
            Expression::AtLeast(1, parts) => parts.len() == count,
            _ => false,
        },
        _ => false,
    }
}

#[test]
fn reads_long_thresholds(rt: HostRuntime) {
    let text = threshold_text(&rt, rt.alloc(), 10_000);
    let rules = read_rules(rt.alloc(), text.as_bytes()).expect(&rt, "memory");
    assert!(rt; lists(&rules, 10_001));
}

const DEEP: &[u8] =
    b"a: /b exists\nb: ((((((((((((((((((((((((((((((((((((((((((((((((((((((((((((((((((((((((((((((((((((((((((((((((((((((";

#[test]
fn says_where_a_rule_is_too_deep(rt: HostRuntime) {
    let message = "line 2, column 105: nested more than 100 deep";
    assert!(rt; has_fault(&rt, rt.alloc(), DEEP, message));
}

// Whether the front of the sample reads, or stops on its last line.
fn stops_on_the_last_line(alloc: Global, front: &[u8]) -> bool {
    let mut line = 1usize;
    let mut column = 1usize;
    for b in front {
        if *b == b'\n' {
            line = line.saturating_add(1);
            column = 1;
        } else {
            column = column.saturating_add(1);
        }
    }
    match read_rules(alloc, front) {
        Ok(rules) => rules.len() == line || rules.len() + 1 == line,
        Err(RulesError::Unreadable(fault)) => fault.line == line && fault.column <= column,
        Err(RulesError::NoMemory) => false,
    }
}

#[test]
fn stops_within_each_front_of_the_sample(rt: HostRuntime) {
    let sample = SAMPLE.as_bytes();
    for len in 0..=sample.len() {
        let sound = stops_on_the_last_line(rt.alloc(), &sample[..len]);
        assert!(rt; sound, "{len} bytes");
    }
}

#[test]
fn skips_a_byte_order_mark(rt: HostRuntime) {
    assert!(rt; without_mark(b"\xef\xbb\xbfa: / exists") == b"a: / exists".as_slice());
    assert!(rt; without_mark(b"a: / exists") == b"a: / exists".as_slice());
    assert!(rt; without_mark(b"\xef\xbb") == b"\xef\xbb".as_slice());
}

// Each fault on a line of its own.
fn lines_of_faults(rt: &impl Abort, alloc: Global, faults: &[Fault]) -> String {
    let mut lines = String::new(alloc);
    for fault in faults {
        writeln!(lines, "{fault}").expect(rt, "memory");
    }
    lines
}

fn has_faults(rt: &impl Abort, alloc: Global, text: &str, expected: &str) -> bool {
    let faults = read_faults(alloc, text.as_bytes()).expect(rt, "memory");
    lines_of_faults(rt, alloc, faults.as_slice()).as_str() == expected
}

// A text, and all its faults.
const FAULTS: [(&str, &str); 3] = [
    (
        "a: /b = 1\nb: /c exists\nc: d == 1",
        "line 1, column 7: expected a word, an operator, a path or a literal, found `=`; did you mean `==`?\nline 3, column 4: expected a word, an operator, a path or a literal, found `d`; a path begins with `/`\n",
    ),
    (
        "a: / exists\na: /b = 1\na: /c exists\nb: / exists\na: / exists",
        "line 2, column 7: expected a word, an operator, a path or a literal, found `=`; did you mean `==`?\nline 3, column 1: the name `a` stands on line 1 already\nline 5, column 1: the name `a` stands on line 1 already\n",
    ),
    (
        "a: /b = 1\na: / exists",
        "line 1, column 7: expected a word, an operator, a path or a literal, found `=`; did you mean `==`?\n",
    ),
];

#[test]
fn reads_all_faults(rt: HostRuntime) {
    for (text, expected) in &FAULTS {
        assert!(rt; has_faults(&rt, rt.alloc(), text, expected), "{text}");
    }
}

// How many faults a text of so many faulty lines has, and the line of the last one.
fn last_fault(rt: &impl Abort, alloc: Global, lines: u32) -> (usize, usize) {
    let mut text = String::new(alloc);
    for _ in 0..lines {
        text.push_str("a: / exist\n# b\n").expect(rt, "memory");
    }
    let faults = read_faults(alloc, text.as_bytes()).expect(rt, "memory");
    let line = match faults.last() {
        Some(fault) => fault.line,
        None => 0,
    };
    (faults.len(), line)
}

#[test]
fn reads_at_most_twenty_one_faults(rt: HostRuntime) {
    for (lines, expected) in [(0, (0, 0)), (19, (19, 37)), (21, (21, 41)), (30, (21, 41))] {
        assert!(rt; last_fault(&rt, rt.alloc(), lines) == expected, "{lines}");
    }
}
