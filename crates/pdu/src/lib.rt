// DEFINE, INTERROGATE and INTERROGATE ACK PDUs, read and written (document 01, "Site sheet" and "The two PDUs"; document 02, 2026-01).
// That reading and writing are inverse is proved in proofs/RoundTrip.antt.
#![tactic(auto)]

pub use grammar::record;
pub use reader::{read, read_words};
pub use walk::Refusal;
pub use writer::{write, write_words};
