//! The description of a predicate's parts.
ghost use Rattle.std.specs.Prelude.{◌≡◌, string_bytes};
ghost use Rattle.predicates_reflection.specs.Tree.{named_trees};
ghost use Rattle.predicates_reflection.specs.Describe.{described};

use crate::reflection::Parameter;
use crate::static_text::StaticText;
use std::marker::Model;

/// A part of a predicate: the name that it stands under, its printed text, its parameters and its
/// own children.
#[derive(Drop)]
pub struct Child {
    name: StaticText,
    text: String,
    parameters: Vec<Parameter>,
    children: Vec<Child>,
}

impl Model for Child {
    ghost use Rattle.std.specs.Prelude.{string_bytes};
    ghost use Rattle.predicates_reflection.specs.Tree.{forest, node_count};
    ghost use Rattle.predicates_reflection.specs.Describe.{NamedChild, coded_child};

    ghost Value = { NamedChild };

    ghost coded = { coded_child };

    ghost view = { λ c. (
      c.name,
      record {
        root = record { text = string_bytes c.text; parameters = c.parameters.items };
        children = forest c.children.items;
      },
    ) };

    ghost size = { λ c. node_count c.1.children };

    ghost use Rattle.predicates_reflection.specs.ChildDepth.{depth_le-node_count};

    ghost size_decreases = { λ c h. depth_le-node_count c.children.items };
}

impl Child {
    /// The description of a part that stands under the name; all four are kept as they are.
    ///
    /// ```
    /// let text = "true".to_owned(alloc)?;
    /// let part = Child::new("left", text, Vec::new(alloc), Vec::new(alloc));
    /// assert!(rt; part.name() == "left" && part.text() == "true");
    /// ```
    pub fn new(
        name: &'static str,
        text: String,
        parameters: Vec<Parameter>,
        children: Vec<Child>,
    ) -> Child
        ensures { result
            ≡ described name.entry.now (string_bytes text) parameters.items children.items }
    {
        Child {
            name: StaticText::new(name),
            text,
            parameters,
            children,
        }
    }

    /// The name that the part stands under, such as `left`.
    ///
    /// ```
    /// assert!(rt; describe(alloc, "left", &predicate::ge(5))?.name() == "left");
    /// ```
    pub fn name(&self) -> &'static str
        ensures { result.now ≡ self.now.0 }
    {
        self.name.as_str()
    }

    /// The printed text of the part.
    ///
    /// ```
    /// assert!(rt; describe(alloc, "left", &predicate::ge(5))?.text() == "var >= 5");
    /// ```
    pub fn text(&self) -> &str
        ensures { result.now ≡ self.now.1.root.text }
    {
        self.text.as_str()
    }

    /// The values that the part was made with.
    ///
    /// ```
    /// let two = predicate::str::contains("a".to_owned(alloc)?).count(2);
    /// let part = describe(alloc, "inner", &two)?;
    /// assert!(rt; part.parameters().iter().any(|p| p.name() == "count" && p.value() == "2"));
    /// ```
    pub fn parameters(&self) -> &[Parameter]
        ensures { result.now ≡ self.now.1.root.parameters }
    {
        self.parameters.as_slice()
    }

    /// The parts that the part itself is made of.
    ///
    /// ```
    /// let part = describe(alloc, "inner", &predicate::ge(5).not())?;
    /// assert!(rt; part.children().iter().all(|child| child.text() == "var >= 5"));
    /// ```
    pub fn children(&self) -> &[Child]
        ensures { result.now ≡ named_trees self.now.1.children }
    {
        self.children.as_slice()
    }
}
