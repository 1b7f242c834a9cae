// Records and requests as words of 32 bits, the form in which they cross to C.
#![tactic(auto)]

pub mod entries;
pub mod record;
pub mod request;
