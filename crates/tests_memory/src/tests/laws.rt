//! The laws about all predicates, which take no memory.
use predicates::laws;
use tests_sweep::refusing;

#[test]
fn laws_of_predicates(rt: HostRuntime) {
    let begun = refusing(rt.alloc(), "the laws");
    laws::first_reasons();
    laws::minimal_reasons();
    laws::one_child();
    laws::enough_children();
    laws::first_changes();
    laws::each_meets_each();
    begun.end(&rt, true).expect(&rt, "memory")
}
