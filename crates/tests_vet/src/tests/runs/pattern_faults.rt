//! What is told of patterns that are no regular expressions.
use vet_checks::PatternFault;

#[test]
fn faults_of_patterns(rt: HostRuntime) {
    let alloc = rt.alloc();
    let pattern = String::from_str(alloc, "[").expect(&rt, "memory");
    let reason = String::from_str(alloc, "unclosed character class").expect(&rt, "memory");
    let fault = PatternFault {
        pattern,
        column: Some(1),
        reason,
    };
    let text = format!(in alloc; "{fault}").expect(&rt, "memory");
    assert!(rt; text.as_str() == "unclosed character class at character 1");
}
