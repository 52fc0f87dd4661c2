//! What takes memory to make a predicate or a snapshot.
use predicates::Predicate;
use predicates::iter::{InPredicate, in_hash, in_iter, same_members};
use predicates_path::Snapshot;
use predicates_text::{RegexError, RegexPredicate, is_match};
use std::alloc::{AllocError, Global};
use std::fs::Files;
use tests_support::text;
use tests_sweep::Memory::{GoesOn, Taken};
use tests_sweep::{Answer, Call, Rendered, sweep};

// More members than are sorted in place.
const MEMBERS: [i64; 24] = [
    7, 14, 21, 5, 12, 19, 3, 10, 17, 1, 8, 15, 22, 6, 13, 20, 4, 11, 18, 2, 9, 16, 23, 0,
];

#[derive(Clone, Copy)]
enum Membership {
    Listed,
    Hashed,
    Sorted,
    SameMembers,
}

impl Call for Membership {
    type Operand = InPredicate<i64>;

    type Answer = Answer;

    fn operand(&self, alloc: Global) -> Result<InPredicate<i64>, AllocError> {
        in_iter(alloc, MEMBERS)
    }

    fn call(&self, alloc: Global, list: InPredicate<i64>) -> Result<Answer, AllocError> {
        let verdict = match self {
            Membership::Listed => in_iter(alloc, MEMBERS)?.eval(alloc, &23)?,
            Membership::Hashed => in_hash(alloc, MEMBERS)?.eval(alloc, &24)?,
            Membership::Sorted => list.sort()?.eval(alloc, &23)?,
            Membership::SameMembers => {
                let same = same_members(alloc, MEMBERS)?;
                same.eval(alloc, &Vec::from_slice(alloc, &MEMBERS)?)?
            }
        };
        Ok(Answer::Verdict(verdict))
    }
}

#[test]
fn memberships(rt: HostRuntime) {
    sweep(&rt, "in_iter", &Membership::Listed, "true", GoesOn).expect(&rt, "memory");
    sweep(&rt, "in_hash", &Membership::Hashed, "false", GoesOn).expect(&rt, "memory");
    sweep(&rt, "sort", &Membership::Sorted, "true", Taken).expect(&rt, "memory");
    sweep(
        &rt,
        "same_members",
        &Membership::SameMembers,
        "true",
        GoesOn,
    )
    .expect(&rt, "memory")
}

// A pattern that was made, or what is wrong with it.
#[derive(Drop)]
enum Made {
    Pattern(RegexPredicate),
    Fault(RegexError),
}

// The pattern, and whether it matches a text.
fn told(alloc: Global, pattern: &RegexPredicate) -> Result<String, AllocError> {
    let found = pattern.eval(alloc, &text(alloc, "One Two")?)?;
    format!(in alloc; "{pattern} {found}")
}

impl Rendered for Made {
    fn rendered(&self, alloc: Global) -> Result<String, AllocError> {
        match self {
            Made::Pattern(pattern) => told(alloc, pattern),
            Made::Fault(error) => error.to_string(alloc),
        }
    }
}

#[derive(Drop)]
struct Pattern<'a> {
    pattern: &'a str,
}

impl Call for Pattern<'_> {
    type Operand = String;

    type Answer = Made;

    fn operand(&self, alloc: Global) -> Result<String, AllocError> {
        text(alloc, self.pattern)
    }

    fn call(&self, alloc: Global, pattern: String) -> Result<Made, AllocError> {
        match is_match(alloc, pattern) {
            Ok(pattern) => Ok(Made::Pattern(pattern)),
            Err(RegexError::OutOfMemory) => Err(AllocError),
            Err(error) => Ok(Made::Fault(error)),
        }
    }
}

#[test]
fn patterns(rt: HostRuntime) {
    for (name, pattern, expected) in [
        ("is_match of nothing", "", "var.is_match() true"),
        (
            "is_match of no pattern",
            "[",
            "regex parse error at 0..1: unclosed character class",
        ),
    ] {
        sweep(&rt, name, &Pattern { pattern }, expected, GoesOn).expect(&rt, "memory");
    }
}

// A snapshot that was taken.
#[derive(Drop)]
struct Seen {
    snapshot: Snapshot,
}

// How many bytes of content there are, or the fault.
impl Rendered for Seen {
    fn rendered(&self, alloc: Global) -> Result<String, AllocError> {
        let seen = &self.snapshot;
        let (path, plain, followed) = (seen.path(), seen.plain(), seen.followed());
        let bytes = match seen.content() {
            Ok(bytes) => Ok(bytes.len()),
            Err(fault) => Err(fault),
        };
        format!(in alloc; "{path} {plain:?} {followed:?} {bytes:?}")
    }
}

#[derive(Drop)]
struct Taking<'a, R> {
    rt: &'a R,
    path: &'a str,
}

impl<R: Files + AllocGlobal> Call for Taking<'_, R> {
    type Operand = ();

    type Answer = Seen;

    fn operand(&self, _alloc: Global) -> Result<(), AllocError> {
        Ok(())
    }

    fn call(&self, _alloc: Global, _operand: ()) -> Result<Seen, AllocError> {
        let snapshot = Snapshot::take(self.rt, self.rt.alloc(), self.path)?;
        Ok(Seen { snapshot })
    }
}

#[test]
fn snapshots(rt: HostRuntime) {
    let folder = Taking {
        rt: &rt,
        path: "/proc/self",
    };
    let expected = "/proc/self Ok(Symlink) Ok(Dir) Err(NotRegular)";
    sweep(&rt, "Snapshot::take of a link", &folder, expected, Taken).expect(&rt, "memory");
    let file = Taking {
        rt: &rt,
        path: "/proc/sys/kernel/ostype",
    };
    let expected = "/proc/sys/kernel/ostype Ok(File) Ok(File) Ok(6)";
    sweep(&rt, "Snapshot::take of a file", &file, expected, Taken).expect(&rt, "memory")
}
