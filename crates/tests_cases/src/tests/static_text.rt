// What no clause says: that the calls are possible, also generically, and that a text outlives its
// holder's place and its holder.
ghost use Rattle.std.specs.Prelude.{◌≡◌};

use predicates_core::as_static_str::AsStaticStr;
use predicates_core::static_text::StaticText;

// Two texts in one type argument, and `'static` in the generic callee's result.
#[derive(Drop)]
struct Titled {
    title: StaticText,
    note: StaticText,
}

impl AsStaticStr for Titled {
    ghost bytes = { λ t. t.title };

    fn text(&self) -> &'static str {
        self.title.text()
    }
}

fn text_of<N: AsStaticStr>(name: &N) -> &'static str
    ensures { result.now ≡ N.bytes name.now }
{
    name.text()
}

fn take(text: &'static str) -> &'static str
    ensures { result.now ≡ text.now }
{
    StaticText::new(text).as_str()
}

#[test]
fn reads_its_text(rt: HostRuntime) {
    for text in ["abc", "", "größer"] {
        let held = StaticText::new(text);
        assert_eq!(rt; held.as_str(), text);
        assert_eq!(rt; text_of(&held), text);
        assert_eq!(rt; text_of(&text), text);
        assert_eq!(rt; take(text), text);
    }
}

#[test]
fn reads_it_once_moved(rt: HostRuntime) {
    let held = StaticText::new("abc");
    let mut names = Vec::new(rt.alloc());
    names.push(held).expect(&rt, "memory");
    names.push(StaticText::new("defg")).expect(&rt, "memory");
    assert_eq!(rt; names[0].as_str(), "abc");
    assert_eq!(rt; names[1].as_str(), "defg");
}

#[test]
fn stands_twice_in_a_type(rt: HostRuntime) {
    let titled = Titled {
        title: StaticText::new("abc"),
        note: StaticText::new("defg"),
    };
    assert_eq!(rt; text_of(&titled), "abc");
    assert_eq!(rt; titled.note.as_str(), "defg");
}
