//! The lines of the script language: bytes in, a line out.
#![tactic(auto)]

mod field;
mod knob;
mod leading;
mod line;
mod part;
mod worked;

pub use field::{PAGE_DIGITS, cut, ended};
pub use knob::Shown;
pub use leading::{leading_page_line, leading_rare_line, leading_short_line, names_content};
pub use line::{Line, LineFault, PageLine, RareLine, ShortLine, parts_of, read_line};
pub use part::{Part, is_read};
pub use worked::bad_lines;
