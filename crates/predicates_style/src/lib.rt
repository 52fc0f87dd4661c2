//! Cases rendered for people: with limits on what is shown, without characters that move, hide or
//! turn what stands around them, in colours.
//!
//! ```
//! let style = Style {
//!     children: Some(10),
//!     ..Style::new()
//! };
//! print!(rt; "{}", render_styled(alloc, &style, &case)?)?;
//! ```
#![tactic(auto)]

mod character;
mod style;
mod text;

pub use style::Style;
pub use text::{render_styled, render_styled_onto};
