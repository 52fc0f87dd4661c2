//! Characters that stand for others: behind a backslash itself, `n`, `r`, `t`, `s` for a space,
//! `x{h}` for the character with that hexadecimal number, and `*{n}` for the character before it, n
//! times in all.
use std::alloc::{AllocError, Global};

// How far a text was read: in its plain part, behind a backslash, behind `\x` or `\*`, or in the
// digits behind the bracket, of which the number was read so far.
#[derive(Drop)]
enum Place {
    Plain,
    Escape,
    Bracket(u32),
    Digits(u32, u32),
}

const HEXADECIMAL: u32 = 16;

const DECIMAL: u32 = 10;

// What a character of the written text adds to the one that is meant.
#[derive(Drop)]
enum Meant {
    Nothing,
    One(char),
    // The last character, this many times in place of once.
    Times(u32),
}

// The character that a letter behind a backslash stands for.
fn letter_for(letter: char) -> Option<char> {
    Some(match letter {
        '\\' => '\\',
        'n' => '\n',
        'r' => '\r',
        't' => '\t',
        's' => ' ',
        _ => return None,
    })
}

// The place behind a character of the digits, and what it adds.
fn step_in_digits(base: u32, number: u32, c: char) -> Option<(Place, Meant)> {
    if c == '}' {
        let meant = if base == DECIMAL {
            Meant::Times(number)
        } else {
            Meant::One(char::from_u32(number)?)
        };
        return Some((Place::Plain, meant));
    }
    let digit = if base == DECIMAL {
        c.to_digit(10)?
    } else {
        c.to_digit(16)?
    };
    let number = number.wrapping_mul(base).wrapping_add(digit);
    Some((Place::Digits(base, number), Meant::Nothing))
}

// The place behind a character that stands behind a backslash, and what it adds.
fn step_behind_backslash(c: char) -> Option<(Place, Meant)> {
    match c {
        'x' => Some((Place::Bracket(HEXADECIMAL), Meant::Nothing)),
        '*' => Some((Place::Bracket(DECIMAL), Meant::Nothing)),
        c => Some((Place::Plain, Meant::One(letter_for(c)?))),
    }
}

// The place behind a character, and what it adds; none where the character may not stand there.
fn step(place: Place, c: char) -> Option<(Place, Meant)> {
    match place {
        Place::Plain if c == '\\' => Some((Place::Escape, Meant::Nothing)),
        Place::Plain => Some((Place::Plain, Meant::One(c))),
        Place::Escape => step_behind_backslash(c),
        Place::Bracket(base) if c == '{' => Some((Place::Digits(base, 0), Meant::Nothing)),
        Place::Bracket(_) => None,
        Place::Digits(base, number) => step_in_digits(base, number, c),
    }
}

// The last character this many times in place of once; false where there is none.
fn repeat_last(text: &mut String, times: u32) -> Result<bool, AllocError> {
    let Some(last) = text.pop() else {
        return Ok(false);
    };
    for _ in 0..times {
        text.push(last)?;
    }
    Ok(true)
}

// Adds what is meant; false where it can't be.
fn add_meant(text: &mut String, meant: Meant) -> Result<bool, AllocError> {
    match meant {
        Meant::Nothing => Ok(true),
        Meant::One(c) => {
            text.push(c)?;
            Ok(true)
        }
        Meant::Times(times) => repeat_last(text, times),
    }
}

/// The text that is meant; none where an escape is unknown or has no end.
pub fn unescape(alloc: Global, written: &str) -> Result<Option<String>, AllocError> {
    let mut text = String::new(alloc);
    let mut place = Place::Plain;
    for c in written.chars() {
        let Some((next, meant)) = step(place, c) else {
            return Ok(None);
        };
        if !add_meant(&mut text, meant)? {
            return Ok(None);
        }
        place = next;
    }
    Ok(match place {
        Place::Plain => Some(text),
        _ => None,
    })
}
