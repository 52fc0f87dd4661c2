//! What tests share: predicates that are made of words at run time, a reference program that finds
//! the first reason of a verdict by trying every set of leaves, helpers over any predicate, and what
//! is handed to a run or a program in place of the system's: readers and writers of one byte at a
//! time or that fail, and a process of values.
#![tactic(auto)]

mod answers;
mod at_least;
mod call;
mod changes;
mod choices;
mod counting;
mod escapes;
mod failing_reader;
mod failing_writer;
mod folder;
mod from_words;
mod helpers;
mod kept_leaves;
mod level;
mod lists;
mod narrow;
mod number_leaf;
mod numbers;
mod one_of;
mod printed;
mod process;
mod reference;
mod shown;
mod slow;
mod text_leaf;
mod text_level;
mod text_reference;
mod text_words;
mod texts;
mod unflushed;
mod words;

pub use answers::{Answers, ask, is_explained, verdict};
pub use at_least::AtLeast;
pub use changes::{Changes, find_changes};
pub use choices::greatest_choice;
pub use counting::Counting;
pub use escapes::unescape;
pub use failing_reader::FailingReader;
pub use failing_writer::FailingWriter;
pub use folder::new_folder;
pub use from_words::{Combinator, FromWords, Word, answer};
pub use helpers::{
    are_copied, characters, describe, description, differ, explains, is_described, render_verdict,
    repeated, text,
};
pub use level::Level;
pub use lists::{answer_list, list_formula};
pub use narrow::Narrow;
pub use number_leaf::NumberLeaf;
pub use numbers::{answer_number, number_formula};
pub use one_of::OneOf;
pub use printed::{keeps_text, print_in_combinators, print_under_flags};
pub use process::{Closed, OpenedFile, Process};
pub use reference::{ReferenceFormula, counted, first_change, first_reason, named_leaf};
pub use slow::Slow;
pub use text_leaf::TextLeaf;
pub use text_level::TextLevel;
pub use text_reference::{bytes_formula, text_formula};
pub use text_words::{TextWord, read_text_words};
pub use texts::{answer_bytes, answer_text};
pub use unflushed::Unflushed;
pub use words::{NumberWord, read_name, read_number_words, read_numbers};
