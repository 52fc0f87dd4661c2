//! Adapters, and what is read of a file.
ghost use Rattle.std.specs.Prelude.{◌≡◌};

use super::super::around::{Asked, Counts};
use crate::tests::made::Host;
use predicates::path::FileType;
use predicates::prelude::*;
use std::fmt;
use tests_support::text;

// What stands at a path, which is no `Debug`.
#[derive(Drop)]
struct Found {
    file: Snapshot,
}

impl fmt::Debug for Found {
    fn fmt<W: fmt::Write>(&self, f: &mut fmt::Formatter<W>) -> fmt::Result {
        f.write_str("found")
    }
}

fn file_of(found: &Found) -> &Snapshot
    ensures { result.now ≡ found.now.file }
{
    &found.file
}

fn of_file(rt: &impl Host, asked: Asked<'_>) -> Counts {
    let path = text(rt.alloc(), "a").expect(rt, "memory");
    let content = vec![in rt.alloc(); b'a'].expect(rt, "memory");
    let kind = Ok(FileType::File);
    let file = Snapshot::from_parts(path, kind, kind, Ok(content));
    counts_in!(
        rt,
        asked,
        |bytes: Vec<u8>| bytes.from_file_path().of_ref("file", file_of),
        Found { file }
    )
}

fn of_bytes(rt: &impl Host, asked: Asked<'_>, byte: u8) -> Counts {
    let item = vec![in rt.alloc(); byte].expect(rt, "memory");
    counts_in!(rt, asked, |text: String| text.from_utf8(), item)
}

fn of_text(rt: &impl Host, name: &str, asked: Asked<'_>) -> Option<Counts> {
    let item = text(rt.alloc(), " A\r\n").expect(rt, "memory");
    Some(match name {
        "trim" => counts_in!(rt, asked, |text: String| text.trim(), item),
        "normalize" => counts_in!(rt, asked, |text: String| text.normalize(), item),
        "fold_case" => counts_in!(rt, asked, |text: String| text.fold_case(), item),
        _ => return None,
    })
}

pub fn counts_of(rt: &impl Host, name: &str, asked: Asked<'_>) -> Option<Counts> {
    Some(match name {
        "from_utf8" => of_bytes(rt, asked, b'a'),
        "no_text" => of_bytes(rt, asked, 0xff),
        "from_file_path" => of_file(rt, asked),
        _ => return of_text(rt, name, asked),
    })
}
