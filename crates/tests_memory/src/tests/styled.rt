//! The lines of cases for people.
use predicates_core::reflection::{Case, Product};
use predicates_style::{Style, render_styled, render_styled_onto};
use std::alloc::{AllocError, Global};
use tests_support::text;
use tests_sweep::Memory::Taken;
use tests_sweep::{Answer, Call, sweep};

// The lines of a case in a style, alone or after what a text holds.
#[derive(Clone, Copy)]
struct Styling {
    style: Style,
    appends: bool,
}

// A case of two children, with a product of three characters.
fn case_of_two(alloc: Global) -> Result<Case, AllocError> {
    let left = Case::new(alloc, Some(text(alloc, "b")?), true);
    let right = Case::new(alloc, Some(text(alloc, "c")?), false);
    let case = Case::new(alloc, Some(text(alloc, "a\n")?), false);
    let case = case.add_product(Product::new("var", text(alloc, "7\n8")?))?;
    case.add_child("left", left)?.add_child("right", right)
}

impl Call for Styling {
    type Operand = (String, Case);

    type Answer = Answer;

    fn operand(&self, alloc: Global) -> Result<(String, Case), AllocError> {
        Ok((text(alloc, "")?, case_of_two(alloc)?))
    }

    fn call(&self, alloc: Global, operand: (String, Case)) -> Result<Answer, AllocError> {
        let (mut lines, case) = operand;
        if self.appends {
            render_styled_onto(&mut lines, &self.style, &case)?;
            return Ok(Answer::Text(lines));
        }
        Ok(Answer::Text(render_styled(alloc, &self.style, &case)?))
    }
}

const CUT: &str = "\
a\\n = \u{1b}[31mfalse\u{1b}[0m
  - var (first 2 of 3 characters): 7\\n
  left: b = \u{1b}[32mtrue\u{1b}[0m
  .. 1 more
";

#[test]
fn styles(rt: HostRuntime) {
    let cut = Style {
        children: Some(1),
        characters: Some(2),
        escapes: true,
        colours: true,
    };
    for (name, style, appends, expected) in [
        ("render_styled", cut, false, CUT),
        ("render_styled_onto", cut, true, CUT),
    ] {
        sweep(&rt, name, &Styling { style, appends }, expected, Taken).expect(&rt, "memory");
    }
}
