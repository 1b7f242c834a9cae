// The meaning of a BOC PDU: its record, the record of zeros, the codes of its elements, its figures, and the grammar in specs/
// (document 01, "Site sheet" and "The two PDUs"; document 02, 2026-01 and 2026-06).
#![tactic(auto)]

pub mod figures;
pub mod record;
pub mod site;
pub mod zero;
