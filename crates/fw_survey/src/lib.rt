//! A survey of meters: what each of a list runs, asked by GET alone (IEC 62056-6-2, Image transfer and the active firmware identifier;
//! IEC 62056-5-3), who would refuse an image, and how that is reported.
#![tactic(auto)]

mod answer;
mod asking;
mod error;
mod list;
mod matching;
mod question;
mod row;
mod serving;
mod survey;

pub use answer::Answer;
pub use error::{OutOfMemory, Stop};
pub use list::survey_list;
pub use question::Question;
pub use row::{Inquiry, Row};
pub use serving::{Timer, survey_meters};
pub use survey::{Survey, Timing};
