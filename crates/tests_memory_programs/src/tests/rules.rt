//! Rules as text, and what is wrong with it.
use std::alloc::{AllocError, Global};
use tests_sweep::Memory::GoesOn;
use tests_sweep::{Call, Rendered, sweep};
use vet_rules::error::RulesError;
use vet_rules::fault::Fault;
use vet_rules::rule::{Rule, read_faults, read_rules};

// Rules that were read, or the fault.
#[derive(Drop)]
enum ReadRules {
    Rules(Vec<Rule>),
    Fault(Fault),
}

// A line for each rule.
fn lines_of(alloc: Global, rules: &[Rule]) -> Result<String, AllocError> {
    let mut lines = String::new(alloc);
    for rule in rules {
        let (name, expression) = (&rule.name, &rule.expression);
        let line = format!(in alloc; "{name}: {expression}\n")?;
        lines.push_str(line.as_str())?;
    }
    Ok(lines)
}

impl Rendered for ReadRules {
    fn rendered(&self, alloc: Global) -> Result<String, AllocError> {
        match self {
            ReadRules::Rules(rules) => lines_of(alloc, rules.as_slice()),
            ReadRules::Fault(fault) => fault.to_string(alloc),
        }
    }
}

#[derive(Clone, Copy)]
struct Reading<'a> {
    text: &'a [u8],
}

impl Call for Reading<'_> {
    type Operand = ();

    type Answer = ReadRules;

    fn operand(&self, _alloc: Global) -> Result<(), AllocError> {
        Ok(())
    }

    fn call(&self, alloc: Global, _operand: ()) -> Result<ReadRules, AllocError> {
        match read_rules(alloc, self.text) {
            Ok(rules) => Ok(ReadRules::Rules(rules)),
            Err(RulesError::Unreadable(fault)) => Ok(ReadRules::Fault(fault)),
            Err(RulesError::NoMemory) => Err(AllocError),
        }
    }
}

// The faults that were found.
#[derive(Drop)]
struct Faults {
    faults: Vec<Fault>,
}

impl Rendered for Faults {
    fn rendered(&self, alloc: Global) -> Result<String, AllocError> {
        let mut lines = String::new(alloc);
        for fault in self.faults.as_slice() {
            let line = format!(in alloc; "{fault}\n")?;
            lines.push_str(line.as_str())?;
        }
        Ok(lines)
    }
}

#[derive(Clone, Copy)]
struct Finding<'a> {
    text: &'a [u8],
}

impl Call for Finding<'_> {
    type Operand = ();

    type Answer = Faults;

    fn operand(&self, _alloc: Global) -> Result<(), AllocError> {
        Ok(())
    }

    fn call(&self, alloc: Global, _operand: ()) -> Result<Faults, AllocError> {
        let faults = read_faults(alloc, self.text)?;
        Ok(Faults { faults })
    }
}

// A library under it may do without a request.
const READ: [(&str, &[u8], &str); 4] = [
    (
        "read_rules",
        b"\
a: /x >= 1.5 and (/y in [1, \"b\"] or not /z is text) # c

\"b c\": each /l (/q missing)",
        "a: /x >= 1.5 and (/y in [1, \"b\"] or not /z is text)\nb c: each /l (/q missing)\n",
    ),
    (
        "read_rules of a fault",
        b"a: / exists\nb: / >=",
        "line 2, column 8: expected a literal or a path, found the end of the line",
    ),
    (
        "read_rules of a misspelt word",
        b"a: / exist",
        "line 1, column 6: expected a word, an operator, a path or a literal, found `exist`; \
         did you mean `exists`?",
    ),
    ("read_rules of no rule", b"# c", ""),
];

#[test]
fn texts_of_rules(rt: HostRuntime) {
    for (name, text, expected) in READ {
        sweep(&rt, name, &Reading { text }, expected, GoesOn).expect(&rt, "memory");
    }
}

const FOUND: [(&str, &[u8], &str); 2] = [
    (
        "read_faults",
        b"a: /b = 1\nb: /c exists\nc: / exist",
        "\
line 1, column 7: expected a word, an operator, a path or a literal, found `=`; did you mean `==`?
line 3, column 6: expected a word, an operator, a path or a literal, found `exist`; \
    did you mean `exists`?
",
    ),
    ("read_faults of no fault", b"a: / exists", ""),
];

#[test]
fn faults_of_rules(rt: HostRuntime) {
    for (name, text, expected) in FOUND {
        sweep(&rt, name, &Finding { text }, expected, GoesOn).expect(&rt, "memory");
    }
}
