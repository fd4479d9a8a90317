//! The application process of a meter, apart from any meter: what a request to its COSEM objects asks, and how the answer
//! is spelled (IEC 62056-6-2, Image transfer and Data; IEC 62056-5-3, GET, SET and ACTION).
#![tactic(auto)]

mod code;
pub mod laws;
mod object;
mod outcome;
mod planning;
mod response;

pub use code::ResultCode;
pub use object::{Object, Reading};
pub use outcome::{Answer, ImageInfo, Outcome};
pub use planning::{Operation, Planned, plan};
pub use response::answer;
