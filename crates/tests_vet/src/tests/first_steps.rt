//! The first part of the page on `vet`, typed as it stands there.
use std::alloc::Global;
use std::process::Abort;
use tests_support::Process;
use vet_program::{Terminals, run_program};

// What is typed, behind `$ `, and what is written then.
const STEPS: [&str; 5] = [
    "\
$ echo 'adult: /age >= 18' > rules
$ echo '{\"name\": \"Ada\", \"age\": 36}' > guests
$ echo '{\"name\": \"Zoe\", \"age\": 17}' >> guests
$ vet rules guests
guests:2: false
adult = false
  rule: /age >= 18 = false
    - found: 17
2 records, 1 failed
$ echo $?
1
",
    "\
$ echo 'known: /name in [\"Ada\", \"Alan\"] or /invited == true' >> rules
$ vet --all rules guests
guests:2: false
adult = false
  rule: /age >= 18 = false
    - found: 17
known = false
  rule: /name in [\"Ada\", \"Alan\"] or /invited == true = false
    part: /name in [\"Ada\", \"Alan\"] = false
      - found: \"Zoe\"
    part: /invited == true = false
      - error: nothing at /invited
2 records, 1 failed
",
    "\
$ echo 'adult: if /alone == true then /age >= 18' > rules
$ echo 'bags: each /bags (/kilos <= 20 and /tag matches \"^[A-Z]{3}$\")' >> rules
$ echo '{\"age\": 17, \"bags\": [{\"kilos\": 9, \"tag\": \"OSL\"}, {\"kilos\": 8, \"tag\": \"bgo\"}]}' > guests
$ vet rules guests
guests:1: false
bags = false
  rule: each /bags (/kilos <= 20 and /tag matches \"^[A-Z]{3}$\") = false
    item: /kilos <= 20 and /tag matches \"^[A-Z]{3}$\" = false
      - index: 1
      part: /tag matches \"^[A-Z]{3}$\" = false
        - found: \"bgo\"
        - index: 1
1 record, 1 failed
",
    "\
$ vet --summary --max 0 rules guests
1  #  bags
0     adult
1 record, 1 failed
",
    "\
$ echo 'adult: /age = 18' > rules
$ vet rules guests
vet: rules: line 1, column 13: expected a word, an operator, a path or a literal, found `=`; did you mean `==`?
",
];

// A file by its name, with what stands in it.
type Entry = (&'static str, Vec<u8>);

// What was typed so far has left: of files of one name the first counts.
#[derive(Drop)]
struct Desk {
    files: Vec<Entry>,
    written: Vec<u8>,
    status: u8,
}

// What stands in the file of this name.
fn read<'d>(desk: &'d Desk, name: &str) -> &'d [u8] {
    for (known, text) in desk.files.iter() {
        if *known == name {
            return text.as_slice();
        }
    }
    b""
}

// Writes the line into a file behind this text.
fn put(
    rt: &impl Abort,
    alloc: Global,
    desk: &mut Desk,
    name: &'static str,
    front: &[u8],
    line: &'static str,
) {
    let mut text = Vec::new(alloc);
    text.extend_from_slice(front).expect(rt, "memory");
    text.extend_from_slice(line.as_bytes()).expect(rt, "memory");
    text.extend_from_slice(b"\n").expect(rt, "memory");
    desk.files.insert(0, (name, text)).expect(rt, "memory");
}

// Runs the program on the words that spaces part.
fn call(rt: &impl Abort, alloc: Global, desk: &mut Desk, line: &'static str) {
    let mut words: Vec<&[u8]> = Vec::new(alloc);
    for word in line.split(' ') {
        words.push(word.as_bytes()).expect(rt, "memory");
    }
    let mut files: Vec<(&str, &[u8])> = Vec::new(alloc);
    for (name, text) in desk.files.iter() {
        files.push((*name, text.as_slice())).expect(rt, "memory");
    }
    let process = Process::new(alloc, words.as_slice(), files.as_slice(), b"");
    let status = run_program(
        &process,
        Terminals {
            output: false,
            error: false,
        },
    );
    let (output, told) = process.into_written();
    desk.written.extend_from_slice(&output).expect(rt, "memory");
    desk.written.extend_from_slice(&told).expect(rt, "memory");
    desk.status = status;
}

// Writes a line into a file: behind what it has, or in place of it.
fn echo(rt: &impl Abort, alloc: Global, desk: &mut Desk, typed: &'static str) {
    if let Some((line, name)) = typed.split_once("' >> ") {
        let mut front = Vec::new(alloc);
        front
            .extend_from_slice(read(desk, name))
            .expect(rt, "memory");
        put(rt, alloc, desk, name, &front, line);
    } else if let Some((line, name)) = typed.split_once("' > ") {
        put(rt, alloc, desk, name, b"", line);
    }
}

// Does what is typed: writes a line into a file, shows the status, or runs the program.
fn enter(rt: &impl Abort, alloc: Global, desk: &mut Desk, line: &'static str) {
    if line == "echo $?" {
        let shown = format!(in alloc; "{}\n", desk.status).expect(rt, "memory");
        desk.written
            .extend_from_slice(shown.as_bytes())
            .expect(rt, "memory");
    } else if let Some(text) = line.strip_prefix("echo '") {
        echo(rt, alloc, desk, text);
    } else {
        call(rt, alloc, desk, line);
    }
}

#[test]
fn first_steps(rt: HostRuntime) {
    let alloc = rt.alloc();
    let mut desk = Desk {
        files: Vec::new(alloc),
        written: Vec::new(alloc),
        status: 0,
    };
    for step in STEPS {
        desk.written.clear();
        for line in step.lines() {
            if let Some(typed) = line.strip_prefix("$ ") {
                desk.written
                    .extend_from_slice(line.as_bytes())
                    .expect(&rt, "memory");
                desk.written.extend_from_slice(b"\n").expect(&rt, "memory");
                enter(&rt, alloc, &mut desk, typed);
            }
        }
        assert!(rt; desk.written.as_slice() == step.as_bytes(), "{step}");
    }
}
