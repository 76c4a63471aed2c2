//! List styles: how the levels of a list, or of the outline, are labelled.

ghost use Rattle.std.specs.Prelude.{◌≡◌, [], IfOk};

use crate::field::Format;
use crate::list::List;
use crate::ranges::LevelNumber;
use crate::texts::{Name, Txt};
use std::alloc::{AllocError, Global};

/// A list style ('text:list-style'), or the outline style ('text:outline-style').
#[derive(Debug, Drop, PartialEq, Eq)]
pub struct ListStyle {
    /// 'style:name'; that of the outline is the empty name.
    pub name: Name,
    /// Its levels in ascending order, each number at most once.
    pub levels: List<ListLevel>,
}

/// One level of a list style.
#[derive(Debug, Drop, PartialEq, Eq)]
pub struct ListLevel {
    /// 'text:level'.
    pub level: LevelNumber,
    /// How items of this level are labelled.
    pub what: LevelWhat,
}

/// How items of one level are labelled.
#[derive(Debug, Drop, PartialEq, Eq)]
pub enum LevelWhat {
    /// By this character ('text:bullet-char' of 'text:list-level-style-bullet').
    Bullet(char),
    /// By numbers ('text:list-level-style-number', 'text:outline-level-style').
    Number {
        /// 'style:num-format'.
        format: Format,
        /// 'style:num-prefix'.
        prefix: Txt,
        /// 'style:num-suffix'.
        suffix: Txt,
        /// The number of the first item ('text:start-value').
        start: u16,
        /// How many levels are shown, up to this one ('text:display-levels').
        display: LevelNumber,
    },
}

impl ListStyle {
    /// The outline style without a level. It takes no memory.
    pub fn no_outline(alloc: Global) -> ListStyle
        ensures name { result.name ≡ [] }
        ensures levels { result.levels ≡ [] }
    {
        ListStyle {
            name: Name::none(alloc),
            levels: List::new(alloc),
        }
    }

    pub fn copy(&self) -> Result<ListStyle, AllocError>
        ensures { IfOk result (λ c. c ≡ self.now) }
    {
        let name = self.name.copy()?;
        let levels = self.levels.copy()?;
        Ok(ListStyle { name, levels })
    }
}

impl Clone for ListStyle {
    ghost is_clone = { λ x y. y ≡ x };

    fn clone(&self) -> Result<ListStyle, AllocError> {
        self.copy()
    }
}

impl ListLevel {
    pub fn copy(&self) -> Result<ListLevel, AllocError>
        ensures { IfOk result (λ c. c ≡ self.now) }
    {
        Ok(ListLevel {
            level: self.level,
            what: self.what.copy()?,
        })
    }
}

impl Clone for ListLevel {
    ghost is_clone = { λ x y. y ≡ x };

    fn clone(&self) -> Result<ListLevel, AllocError> {
        self.copy()
    }
}

impl LevelWhat {
    pub fn copy(&self) -> Result<LevelWhat, AllocError>
        ensures { IfOk result (λ c. c ≡ self.now) }
    {
        match self {
            LevelWhat::Bullet(bullet) => Ok(LevelWhat::Bullet(*bullet)),
            LevelWhat::Number {
                format,
                prefix,
                suffix,
                start,
                display,
            } => Ok(LevelWhat::Number {
                format: *format,
                prefix: prefix.copy()?,
                suffix: suffix.copy()?,
                start: *start,
                display: *display,
            }),
        }
    }
}
