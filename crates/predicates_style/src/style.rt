//! What a rendered case shows, and how.
ghost use Rattle.std.specs.Prelude.{◌≡◌};
ghost use Rattle.predicates_style.specs.Style.{plain};

/// What a rendered case shows, and how it is written.
#[derive(Clone, Copy)]
pub struct Style {
    /// How many children of a node are shown at most; `None` is no limit.
    pub children: Option<usize>,
    /// How many characters of a product's value are shown at most; `None` is no limit.
    pub characters: Option<usize>,
    /// Whether these are written as Rust escapes them, such as `\n` and `\u{202e}`: control
    /// characters, what sets the direction of writing, the separators of lines and paragraphs, and
    /// the byte order mark. A backslash is written as it is.
    pub escapes: bool,
    /// Whether `true` is green and `false` is red on a terminal.
    pub colours: bool,
}

impl Style {
    /// No limits, no escapes and no colours: a case is rendered as by `render`.
    ///
    /// ```
    /// let style = Style {
    ///     characters: Some(80),
    ///     ..Style::new()
    /// };
    /// assert!(rt; style.children.is_none() && !style.escapes);
    /// ```
    pub fn new() -> Style
        ensures { result ≡ plain }
    {
        Style {
            children: None,
            characters: None,
            escapes: false,
            colours: false,
        }
    }
}

impl Default for Style {
    ghost is_default = { λ style. style ≡ plain };

    fn default() -> Style {
        Style::new()
    }
}
