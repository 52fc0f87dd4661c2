//! Cases and their lines, and a view of a text.
use predicates_core::reflection::{Case, Product, render_onto};
use predicates_text::trimmed;
use std::alloc::{AllocError, Global};
use tests_support::text;
use tests_sweep::Memory::Taken;
use tests_sweep::{Answer, Call, refusing, sweep};

// A case without children, with a product.
fn leaf(alloc: Global, label: &str) -> Result<Case, AllocError> {
    let case = Case::new(alloc, Some(text(alloc, label)?), true);
    case.add_product(Product::new("var", text(alloc, "7")?))
}

// A second child, for which and for whose parts the list of the first has no room.
#[derive(Clone, Copy)]
struct AddChild;

impl Call for AddChild {
    type Operand = (Case, Case);

    type Answer = Answer;

    fn operand(&self, alloc: Global) -> Result<(Case, Case), AllocError> {
        let mut child = leaf(alloc, "c")?;
        for _ in 0..4 {
            child = child.add_child("part", Case::new(alloc, None, true))?;
        }
        Ok((
            leaf(alloc, "a")?.add_child("left", leaf(alloc, "b")?)?,
            child,
        ))
    }

    fn call(&self, _alloc: Global, operand: (Case, Case)) -> Result<Answer, AllocError> {
        let (case, child) = operand;
        Ok(Answer::Case(Some(case.add_child("right", child)?)))
    }
}

#[test]
fn second_children(rt: HostRuntime) {
    let expected = "\
a = true
  - var: 7
  left: b = true
    - var: 7
  right: c = true
    - var: 7
    part: predicate = true
    part: predicate = true
    part: predicate = true
    part: predicate = true
";
    sweep(&rt, "add_child beside another", &AddChild, expected, Taken).expect(&rt, "memory")
}

// The lines of a case, after what a text holds.
#[derive(Clone, Copy)]
struct Rendering;

impl Call for Rendering {
    type Operand = (String, Case);

    type Answer = Answer;

    fn operand(&self, alloc: Global) -> Result<(String, Case), AllocError> {
        let case = leaf(alloc, "a")?.add_child("left", leaf(alloc, "b")?)?;
        Ok((text(alloc, "")?, case))
    }

    fn call(&self, _alloc: Global, operand: (String, Case)) -> Result<Answer, AllocError> {
        let (mut lines, case) = operand;
        render_onto(&mut lines, &case)?;
        Ok(Answer::Text(lines))
    }
}

#[test]
fn lines(rt: HostRuntime) {
    let expected = "a = true\n  - var: 7\n  left: b = true\n    - var: 7\n";
    sweep(&rt, "render_onto", &Rendering, expected, Taken).expect(&rt, "memory")
}

#[test]
fn views(rt: HostRuntime) {
    let begun = refusing(rt.alloc(), "trimmed of blanks");
    let right = match trimmed(rt.alloc(), "  ") {
        Ok(view) => view.is_empty(),
        Err(AllocError) => false,
    };
    begun.end(&rt, right).expect(&rt, "memory")
}
