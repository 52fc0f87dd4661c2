//! How many of several predicates have to hold, as a value and as a type.
ghost use Rattle.std.specs.Prelude.{◌≡◌};
ghost use Rattle.predicates_core.specs.HowMany.{least_of};
ghost use Rattle.predicates_core.specs.declared.custom.quantifier.HowMany.{HowMany};
ghost use Rattle.predicates_core.specs.declared.custom.quantifier.HowMany.TheVariants as many;

/// How many of several predicates have to hold.
#[derive(Debug, Clone, Copy, PartialEq, Eq)]
pub enum HowMany {
    /// Each of them.
    Every,
    /// At least one.
    AtLeastOne,
    /// At least so many.
    AtLeast(usize),
}

impl HowMany {
    /// How many of the number have to hold.
    ///
    /// ```
    /// assert!(rt; HowMany::Every.least_of(3) == 3 && HowMany::AtLeastOne.least_of(3) == 1);
    /// ```
    pub fn least_of(self, number: usize) -> usize
        ensures { result ≡ least_of self number }
    {
        match self {
            HowMany::Every => number,
            HowMany::AtLeastOne => 1,
            HowMany::AtLeast(least) => least,
        }
    }
}

/// How many of several predicates have to hold, as a type: each, one, or so many.
pub trait Quantifier {
    // How many.
    ghost how_many: { Self → HowMany };

    /// How many.
    ///
    /// ```
    /// assert!(rt; AtLeast { least: 2 }.how_many() == HowMany::AtLeast(2));
    /// ```
    fn how_many(&self) -> HowMany
        ensures { result ≡ how_many self.now };
}

/// Each of them has to hold.
#[derive(Debug, Clone, Copy, PartialEq, Eq)]
pub struct Every;

impl Quantifier for Every {
    ghost how_many = { λ _. many.Every };

    fn how_many(&self) -> HowMany {
        HowMany::Every
    }
}

/// At least one of them has to hold.
#[derive(Debug, Clone, Copy, PartialEq, Eq)]
pub struct AtLeastOne;

impl Quantifier for AtLeastOne {
    ghost how_many = { λ _. many.AtLeastOne };

    fn how_many(&self) -> HowMany {
        HowMany::AtLeastOne
    }
}

/// At least so many of them have to hold.
#[derive(Debug, Clone, Copy, PartialEq, Eq)]
pub struct AtLeast {
    /// How many.
    pub least: usize,
}

impl Quantifier for AtLeast {
    ghost how_many = { λ q. many.AtLeast q.least };

    fn how_many(&self) -> HowMany {
        HowMany::AtLeast(self.least)
    }
}
