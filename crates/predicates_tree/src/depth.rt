//! How deep checks are nested.
ghost use Rattle.std.specs.Prelude.{◌↔◌, ◌<◌, IsTrue};
ghost use Rattle.predicates_tree.specs.Depth.{depth_of, depth_of_parts};

use crate::check::Check;

impl<L, V, S> Check<L, V, S> {
    /// Whether it is nested deeper than the limit. A leaf alone is 1 deep, and so is a row without
    /// parts; any other check, also a name, is 1 deeper than the deepest of its parts.
    ///
    /// It is for a check that is read from outside input, before that is evaluated, explained or
    /// printed, since these take stack for each level. It looks at no more levels than the limit, so
    /// it takes stack for no more than these, however deep the check is, and no memory.
    ///
    /// ```
    /// let small = Check::leaf(predicate::ge(5)).not(alloc)?;
    /// assert!(rt; small.is_deeper_than(1));
    /// assert!(rt; !small.is_deeper_than(2));
    /// ```
    #[cycle(depth)]
    pub fn is_deeper_than(&self, limit: usize) -> bool
        ensures { IsTrue result ↔ (limit < depth_of self.now) }
    {
        if limit == 0 {
            return true;
        }
        match self {
            Check::Leaf(_) => false,
            Check::Not(_, inner) => inner.is_deeper_than(limit - 1),
            Check::Named(_, inner) => inner.is_deeper_than(limit - 1),
            Check::Pair(_, _, left, right) => {
                left.is_deeper_than(limit - 1) || right.is_deeper_than(limit - 1)
            }
            Check::Row(_, _, parts) => Check::<L, V, S>::one_is_deeper(parts, limit - 1),
            Check::Members(_, _, _, inner) => inner.is_deeper_than(limit - 1),
        }
    }

    // Whether one of the parts is.
    #[cycle(depth)]
    fn one_is_deeper(parts: &[Check<L, V, S>], limit: usize) -> bool
        ensures { IsTrue result ↔ (limit < depth_of_parts parts.now) }
    {
        for part in parts {
            if part.is_deeper_than(limit) {
                return true;
            }
        }
        false
    }
}
