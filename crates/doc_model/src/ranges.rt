//! Numbers of a document that keep their ranges. Contracts see each as its number.

ghost use Rattle.std.specs.Prelude.{◌≡◌, pos, MatchOption};
ghost use Rattle.doc_model.specs.Ranges.{IsLength, IsDistance, IsPageAdjust, IsLevelNumber};

use std::marker::Model;

/// The greatest size of a length, in units.
const LONGEST: i32 = 100_000_000;

/// A length in units, 914400 to an inch, of a size of at most 100000000 units: some 109 inches.
#[derive(Debug, Clone, Copy, PartialEq, Eq)]
pub struct Length {
    units: i32,
}

impl Model for Length {
    ghost use Rattle.std.specs.Prelude.{ℤ};
    ghost use Rattle.doc_model.specs.Ranges.{IsLength};

    ghost Value = { ℤ };

    ghost view = { λ length. length.units };

    ghost inverse = { λ units. record { units = units } };

    ghost invariant = { λ length. IsLength length.units };
}

impl Length {
    /// A length of so many units, where they are one.
    pub fn new(units: i32) -> Option<Length>
        ensures { MatchOption result (IsLength units → ⊥) (λ length. (length ≡ units) × IsLength units) }
    {
        if units < -LONGEST {
            return None;
        }
        if units > LONGEST {
            return None;
        }
        Some(Length { units })
    }

    /// The length 0.
    pub fn zero() -> Length
        ensures { result ≡ pos 0 }
    {
        Length { units: 0 }
    }

    /// How many units it has.
    pub fn units(self) -> i32
        ensures same { result ≡ self }
        ensures range { IsLength result }
    {
        self.units
    }
}

/// A length in units that isn't below 0.
#[derive(Debug, Clone, Copy, PartialEq, Eq)]
pub struct Distance {
    units: u32,
}

impl Model for Distance {
    ghost use Rattle.std.specs.Prelude.{ℕ};
    ghost use Rattle.doc_model.specs.Ranges.{IsDistance};

    ghost Value = { ℕ };

    ghost view = { λ distance. distance.units };

    ghost inverse = { λ units. record { units = units } };

    ghost invariant = { λ distance. IsDistance distance.units };
}

impl Distance {
    /// A distance of so many units, where they are one.
    pub fn new(units: u32) -> Option<Distance>
        ensures { MatchOption result (IsDistance units → ⊥) (λ distance. (distance ≡ units) × IsDistance units) }
    {
        if units > LONGEST as u32 {
            return None;
        }
        Some(Distance { units })
    }

    /// How many units it has.
    pub fn units(self) -> u32
        ensures same { result ≡ self }
        ensures range { IsDistance result }
    {
        self.units
    }
}

/// How many pages a page number field adds to the index of its page, -9999 to 9999.
#[derive(Debug, Clone, Copy, PartialEq, Eq)]
pub struct PageAdjust {
    pages: i32,
}

impl Model for PageAdjust {
    ghost use Rattle.std.specs.Prelude.{ℤ};
    ghost use Rattle.doc_model.specs.Ranges.{IsPageAdjust};

    ghost Value = { ℤ };

    ghost view = { λ adjust. adjust.pages };

    ghost inverse = { λ pages. record { pages = pages } };

    ghost invariant = { λ adjust. IsPageAdjust adjust.pages };
}

impl PageAdjust {
    /// An adjust by so many pages, where they are one.
    pub fn new(pages: i32) -> Option<PageAdjust>
        ensures { MatchOption result (IsPageAdjust pages → ⊥) (λ adjust. (adjust ≡ pages) × IsPageAdjust pages) }
    {
        if pages < -9999 {
            return None;
        }
        if pages > 9999 {
            return None;
        }
        Some(PageAdjust { pages })
    }

    /// How many pages it adds.
    pub fn pages(self) -> i32
        ensures same { result ≡ self }
        ensures range { IsPageAdjust result }
    {
        self.pages
    }
}

/// The number of a level of a list style, or how many levels one shows: 1 to 10.
#[derive(Debug, Clone, Copy, PartialEq, Eq)]
pub struct LevelNumber {
    number: u8,
}

impl Model for LevelNumber {
    ghost use Rattle.std.specs.Prelude.{ℕ};
    ghost use Rattle.doc_model.specs.Ranges.{IsLevelNumber};

    ghost Value = { ℕ };

    ghost view = { λ level. level.number };

    ghost inverse = { λ number. record { number = number } };

    ghost invariant = { λ level. IsLevelNumber level.number };
}

impl LevelNumber {
    /// The level of this number, where there is one.
    pub fn new(number: u8) -> Option<LevelNumber>
        ensures { MatchOption result (IsLevelNumber number → ⊥) (λ level. (level ≡ number) × IsLevelNumber number) }
    {
        if number < 1 {
            return None;
        }
        if number > 10 {
            return None;
        }
        Some(LevelNumber { number })
    }

    /// Its number.
    pub fn get(self) -> u8
        ensures same { result ≡ self }
        ensures range { IsLevelNumber result }
    {
        self.number
    }
}
