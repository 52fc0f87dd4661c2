//! The count of each short pattern in each short text, beside every choice of places.
use crate::tests::made::Host;
use predicates_core::Predicate;
use predicates_text::contains;
use tests_support::greatest_choice;

// The characters of a number's lowest bits, `a` for 0 and `ä` for 1.
fn spell(rt: &impl Host, bits: u32, len: u32) -> Vec<char> {
    let mut characters = Vec::new(rt.alloc());
    for place in 0..len.min(7) {
        characters
            .push(if bits & (1 << place) == 0 { 'a' } else { 'ä' })
            .expect(rt, "memory");
    }
    characters
}

fn text_of(rt: &impl Host, characters: &[char]) -> String {
    let mut text = String::new(rt.alloc());
    for character in characters {
        text.push(*character).expect(rt, "memory");
    }
    text
}

// Whether the pattern is counted as often as `count` says.
fn counts(rt: &impl Host, pattern: &[char], item: &[char], count: usize) -> bool {
    let item = text_of(rt, item);
    contains(text_of(rt, pattern))
        .count(count)
        .eval(rt.alloc(), &item)
        .expect(rt, "memory")
}

// Whether the pattern is counted as often as places can be chosen, and not once more.
fn is_counted(rt: &impl Host, pattern: &[char], item: &[char]) -> bool {
    let greatest = greatest_choice(pattern, item);
    if !counts(rt, pattern, item, greatest) {
        return false;
    }
    let once_more = counts(rt, pattern, item, greatest.saturating_add(1));
    !once_more
}

// How many patterns of at most three characters are counted right in the text.
fn counted_right(rt: &impl Host, item: &[char]) -> u32 {
    let mut right = 0_u32;
    for number in 1..16_u32 {
        let pattern = spell(rt, number, number.ilog2());
        if is_counted(rt, &pattern, item) {
            right = right.saturating_add(1);
        }
    }
    right
}

#[test]
fn counts_beside_every_choice(rt: HostRuntime) {
    let mut texts = 0_u32;
    for len in 0..7 {
        for bits in 0..(1u32 << len) {
            let item = spell(&rt, bits, len);
            assert_eq!(rt; counted_right(&rt, &item), 15, "{bits} of {len}");
            texts = texts.saturating_add(1);
        }
    }
    // 1 905 counts.
    assert_eq!(rt; texts, 127);
}
