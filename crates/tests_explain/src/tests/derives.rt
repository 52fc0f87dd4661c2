use explain_run::{Exit, RunFault, Word, WordFault};
use tests_support::{are_copied, differ};

#[test]
fn faults_ends_and_words(rt: HostRuntime) {
    let alloc = rt.alloc();
    assert!(rt; are_copied(alloc, RunFault::Input, RunFault::Output).expect(&rt, "memory"));
    assert!(rt; are_copied(alloc, WordFault::Operand, WordFault::Pattern).expect(&rt, "memory"));
    assert!(rt; are_copied(alloc, Exit::Usage, Exit::NoMemory).expect(&rt, "memory"));
    assert!(rt; differ(alloc, &Word::Trim, &Word::Normalize).expect(&rt, "memory"));
}
