//! Words of a check of texts.
use explain_run::{TextCheck, Word, WordFault, WordsError, apply_word, read_word};
use std::alloc::{AllocError, Global};
use std::process::Abort;
use tests_sweep::Memory::{GoesOn, Never, Taken};
use tests_sweep::{Answer, Call, Rendered, sweep};

// The words as texts.
fn texts_of(alloc: Global, words: &[&str]) -> Result<Vec<String>, AllocError> {
    let mut texts = Vec::new(alloc);
    for word in words {
        texts.push(String::from_str(alloc, word)?)?;
    }
    Ok(texts)
}

/// The check of the words.
pub fn check_of(rt: &impl Abort, alloc: Global, words: &[&str]) -> TextCheck {
    let texts = texts_of(alloc, words).expect(rt, "memory");
    TextCheck::from_words(alloc, texts.as_slice()).expect(rt, "memory")
}

// A word that was read.
#[derive(Drop)]
struct ReadWord {
    word: Option<Word>,
}

impl Rendered for ReadWord {
    fn rendered(&self, alloc: Global) -> Result<String, AllocError> {
        format!(in alloc; "{:?}", self.word)
    }
}

#[derive(Drop)]
struct Reading<'a> {
    token: &'a str,
}

impl Call for Reading<'_> {
    type Operand = ();

    type Answer = ReadWord;

    fn operand(&self, _alloc: Global) -> Result<(), AllocError> {
        Ok(())
    }

    fn call(&self, alloc: Global, _operand: ()) -> Result<ReadWord, AllocError> {
        let word = read_word(alloc, self.token)?;
        Ok(ReadWord { word })
    }
}

#[test]
fn tokens(rt: HostRuntime) {
    for (token, expected, memory) in [
        ("empty", "Some(Empty)", Never),
        ("eq=a=b", "Some(Equals(\"a=b\"))", Taken),
        ("starts=a", "Some(Starts(\"a\"))", Taken),
        ("ends=a", "Some(Ends(\"a\"))", Taken),
        ("contains=a", "Some(Contains(\"a\"))", Taken),
        ("match=a", "Some(Matches(\"a\"))", Taken),
        ("eq=", "Some(Equals(\"\"))", Never),
        ("trim", "Some(Trim)", Never),
        ("normalize", "Some(Normalize)", Never),
        ("not", "Some(Not)", Never),
        ("and", "Some(And)", Never),
        ("or", "Some(Or)", Never),
        ("xor", "Some(Xor)", Never),
        ("nor", "None", Never),
    ] {
        let name = format!(in rt.alloc(); "read_word of {token}").expect(&rt, "memory");
        sweep(&rt, name.as_str(), &Reading { token }, expected, memory).expect(&rt, "memory");
    }
}

// The checks of the tokens, one each.
fn checks_of(alloc: Global, tokens: &[&str]) -> Result<Vec<TextCheck>, AllocError> {
    let mut checks = Vec::new(alloc);
    for token in tokens {
        let word = read_word(alloc, token)?.ok_or(AllocError)?;
        apply_word(alloc, &mut checks, word).map_err(|_fault| AllocError)?;
    }
    Ok(checks)
}

// The checks that are there after a word, unless it was refused for another reason than memory.
#[derive(Drop)]
struct Applied {
    checks: Option<Vec<TextCheck>>,
}

// A line for each check.
fn lines_of(alloc: Global, checks: &[TextCheck]) -> Result<String, AllocError> {
    let mut lines = String::new(alloc);
    for check in checks {
        let line = format!(in alloc; "{check}\n")?;
        lines.push_str(line.as_str())?;
    }
    Ok(lines)
}

impl Rendered for Applied {
    fn rendered(&self, alloc: Global) -> Result<String, AllocError> {
        match &self.checks {
            Some(checks) => lines_of(alloc, checks.as_slice()),
            None => String::from_str(alloc, "another fault"),
        }
    }
}

// A word, applied to the checks of other tokens.
#[derive(Drop)]
struct Applying<'a> {
    before: &'a [&'a str],
    token: &'a str,
}

impl Call for Applying<'_> {
    type Operand = (Vec<TextCheck>, Word);

    type Answer = Applied;

    fn operand(&self, alloc: Global) -> Result<(Vec<TextCheck>, Word), AllocError> {
        let word = read_word(alloc, self.token)?.ok_or(AllocError)?;
        Ok((checks_of(alloc, self.before)?, word))
    }

    fn call(&self, alloc: Global, operand: (Vec<TextCheck>, Word)) -> Result<Applied, AllocError> {
        let (mut stack, word) = operand;
        match apply_word(alloc, &mut stack, word) {
            Ok(()) => Ok(Applied {
                checks: Some(stack),
            }),
            Err(WordFault::NoMemory) => Err(AllocError),
            Err(_) => Ok(Applied { checks: None }),
        }
    }
}

#[test]
fn words_of_no_operands(rt: HostRuntime) {
    for (token, expected, memory) in [
        ("empty", "var.is_empty()\n", Taken),
        ("eq=a", "var == \"a\"\n", Taken),
        ("starts=a", "var.starts_with(\"a\")\n", Taken),
        ("ends=a", "var.ends_with(\"a\")\n", Taken),
        ("contains=a", "var.contains(a)\n", Taken),
        ("match=T[a-z]*", "var.is_match(T[a-z]*)\n", GoesOn),
        ("match=", "var.is_match()\n", GoesOn),
        ("match=[", "another fault", GoesOn),
    ] {
        let name = format!(in rt.alloc(); "apply_word of {token}").expect(&rt, "memory");
        sweep(
            &rt,
            name.as_str(),
            &Applying { before: &[], token },
            expected,
            memory,
        )
        .expect(&rt, "memory");
    }
}

#[test]
fn words_over_checks(rt: HostRuntime) {
    for (token, expected) in [
        ("trim", "var.is_empty()\nvar.contains(a)\n"),
        ("normalize", "var.is_empty()\nvar.contains(a)\n"),
        ("not", "var.is_empty()\n(! var.contains(a))\n"),
        ("and", "(var.is_empty() && var.contains(a))\n"),
        ("or", "(var.is_empty() || var.contains(a))\n"),
        ("xor", "(var.is_empty() ^ var.contains(a))\n"),
    ] {
        let name = format!(in rt.alloc(); "apply_word of {token}").expect(&rt, "memory");
        let before = ["empty", "contains=a"];
        let applying = Applying {
            before: &before,
            token,
        };
        sweep(&rt, name.as_str(), &applying, expected, Taken).expect(&rt, "memory");
    }
}

// A word that lacks an operand is refused for that alone.
#[test]
fn missing_operands(rt: HostRuntime) {
    for token in ["trim", "normalize", "not", "and", "or", "xor"] {
        let name = format!(in rt.alloc(); "apply_word of {token}, without an operand").expect(
            &rt, "memory",
        );
        let applying = Applying { before: &[], token };
        sweep(&rt, name.as_str(), &applying, "another fault", Never).expect(&rt, "memory");
    }
}

// A check that is made of words.
#[derive(Drop)]
struct FromWords<'a> {
    words: &'a [&'a str],
}

impl Call for FromWords<'_> {
    type Operand = Vec<String>;

    type Answer = Answer;

    fn operand(&self, alloc: Global) -> Result<Vec<String>, AllocError> {
        texts_of(alloc, self.words)
    }

    fn call(&self, alloc: Global, operand: Vec<String>) -> Result<Answer, AllocError> {
        match TextCheck::from_words(alloc, operand.as_slice()) {
            Ok(check) => Ok(Answer::Text(check.to_string(alloc)?)),
            Err(WordsError::NoMemory) => Err(AllocError),
            Err(error) => Ok(Answer::Text(error.to_string(alloc)?)),
        }
    }
}

#[test]
fn checks_from_words(rt: HostRuntime) {
    for (words, expected) in [
        (
            ["empty", "trim", "contains=a", "or"].as_slice(),
            "(var.is_empty() || var.contains(a))",
        ),
        (["empty", "foo"].as_slice(), "word 2, \"foo\": no such word"),
        (["empty", "empty"].as_slice(), "2 checks are left, not one"),
    ] {
        sweep(&rt, expected, &FromWords { words }, expected, Taken).expect(&rt, "memory");
    }
    let words = ["empty", "match=["].as_slice();
    let expected = "word 2, \"match=[\": regular expression rejected";
    sweep(&rt, expected, &FromWords { words }, expected, GoesOn).expect(&rt, "memory")
}
