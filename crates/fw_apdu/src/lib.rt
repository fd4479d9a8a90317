//! The services GET, SET and ACTION of COSEM in their normal forms, with logical names
//! (IEC 62056-5-3).
#![tactic(auto)]

pub mod cosem;
mod error;
mod fields;
pub mod laws;
mod places;
mod request;
mod response;

pub use error::ApduError;
pub use fields::{INVOKE_IDS, Invoke, LogicalName};
pub use request::{Request, read_request, write_request};
pub use response::{
    GetDataResult, Response, action_code, get_code, read_response, set_code, write_response,
};
