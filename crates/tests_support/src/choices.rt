//! The greatest number of disjoint places of a pattern, by trying every choice of places.

// How many places are tried: those from 0 on.
const PLACES: u32 = 8;

// Whether the pattern stands in the text at the place.
fn stands_at(pattern: &[char], text: &[char], place: u32) -> bool {
    match text.get(place as usize..) {
        Some(rest) => rest.starts_with(pattern),
        None => false,
    }
}

// Whether the pattern stands at each place of the choice, no two closer than its length.
fn is_disjoint(pattern: &[char], text: &[char], choice: u32) -> bool {
    for place in 0..PLACES {
        if choice & (1 << place) == 0 {
            continue;
        }
        if !stands_at(pattern, text, place) {
            return false;
        }
        for other in 0..place {
            if choice & (1 << other) != 0 && ((place - other) as usize) < pattern.len() {
                return false;
            }
        }
    }
    true
}

/// The greatest number of places of the pattern in a text of at most seven characters that are
/// pairwise at least the pattern's length apart, by trying every choice.
pub fn greatest_choice(pattern: &[char], text: &[char]) -> usize {
    let mut greatest = 0;
    for choice in 0..(1u32 << PLACES) {
        if is_disjoint(pattern, text, choice) {
            greatest = greatest.max(choice.count_ones() as usize);
        }
    }
    greatest
}
