//! Which characters `trim` drops.
use crate::tests::made::Host;
use predicates_core::Predicate;
use predicates_text::{PredicateStrExt, is_empty};

// The first and the last of each row of characters with the property White_Space.
const WHITE_SPACE: [(u32, u32); 10] = [
    (0x9, 0xD),
    (0x20, 0x20),
    (0x85, 0x85),
    (0xA0, 0xA0),
    (0x1680, 0x1680),
    (0x2000, 0x200A),
    (0x2028, 0x2029),
    (0x202F, 0x202F),
    (0x205F, 0x205F),
    (0x3000, 0x3000),
];

fn is_white_space(number: u32) -> bool {
    for (first, last) in WHITE_SPACE {
        if first <= number && number <= last {
            return true;
        }
    }
    false
}

// Whether nothing is left of the character alone.
fn is_trimmed(rt: &impl Host, character: char) -> bool {
    let mut item = String::new(rt.alloc());
    item.push(character).expect(rt, "memory");
    is_empty()
        .trim()
        .eval(rt.alloc(), &item)
        .expect(rt, "memory")
}

#[test]
fn trim_drops_white_space_alone(rt: HostRuntime) {
    for number in 0..0x11_0000 {
        let Some(character) = char::from_u32(number) else {
            continue;
        };
        let is_trimmed = is_trimmed(&rt, character);
        assert_eq!(rt; is_trimmed, is_white_space(number), "{number}");
    }
}
