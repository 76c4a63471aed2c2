//! Pages as definitions: the body rows of paragraphs, where pages may end, the pages of rows, their bodies and their table.
#![tactic(auto)]

mod body;
mod frame;
mod placed;
mod row;

pub use body::{HeadText, PageBody};
pub use frame::{Frame, Frames};
pub use placed::{NotePar, NoteRows, ParRows};
pub use row::{First, Heading, NoteRow, Row};
