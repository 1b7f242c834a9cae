// The table: a byte with a profile for each place, and what a set line changes.
ghost use Rattle.std.specs.Prelude.{◌≡◌, Ok, length, leb};
ghost use Rattle.std.specs.List.{list_all};
ghost use Rattle.terminals.specs.Layers.{places};
ghost use Rattle.terminals.specs.Profiles.{is_table, is_value, takes, fields_refusal, set_in};

use crate::Refusal;
use crate::layers::{Layer, PACKET_DATA, PLACES, layer_of};
use crate::lines::Fields;

// The profile "both", and the highest one. Profiles stay bytes: C lends the table.
pub(crate) const BOTH: u8 = 2;

const NEITHER: u8 = 3;

fn are_profiles(table: &[u8]) -> bool
    ensures { result ≡ list_all (λ v. leb v 3) table.now }
{
    table.iter().all(|profile| *profile <= NEITHER)
}

#[tactic(auto, unfolding(crate::specs::Profiles::is_table, crate::specs::Profiles::are_profiles))]
pub(crate) fn is_table(table: &[u8]) -> bool
    ensures { result ≡ is_table table.now }
{
    table.len() == PLACES && are_profiles(table)
}

// Whether a third field that its layer takes is one of its values.
fn is_value(row: Layer, third: Option<usize>) -> bool
    ensures { result ≡ is_value row third }
{
    match (row.first, third) {
        (Some(first), Some(value)) => first <= value && value - first < row.count,
        _ => true,
    }
}

// Whether a layer takes a third field, where there is one.
fn takes_third(row: Layer, third: Option<usize>) -> bool
    ensures { result ≡ takes row third }
{
    third.is_none() || row.first.is_some()
}

// Refuses a set line's fields, or lets them pass.
#[tactic(auto, unfolding(crate::specs::Profiles::fields_refusal))]
pub(crate) fn refusal(fields: Fields) -> Result<(), Refusal>
    ensures { result ≡ fields_refusal fields }
{
    if fields.profile > NEITHER as usize || fields.layer > PACKET_DATA {
        return Err(Refusal::BadValue);
    }
    let row = layer_of(fields.layer);
    if !is_value(row, fields.third) {
        return Err(Refusal::BadValue);
    }
    if !takes_third(row, fields.third) || fields.fourth {
        return Err(Refusal::SurplusField);
    }
    Ok(())
}

// Stores the profile of a set line in the places that it names.
pub(crate) fn store(fields: Fields, table: &mut [u8])
    requires { (fields_refusal fields ≡ Ok tt) × (length table.old ≡ 269) }
    ensures { table.new ≡ set_in fields places table.old }
{
    let row = layer_of(fields.layer);
    let profile = fields.profile as u8;
    // Only a layer with values is given one, since the fields were not refused.
    match (row.first, fields.third) {
        (Some(first), Some(value)) => table[row.start + (value - first)] = profile,
        _ => table[row.start..row.start + row.count].fill(profile),
    }
}
