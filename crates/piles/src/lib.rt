// Piles: what holds of any layers in turn over any head.
#![tactic(auto)]

mod standing;
#[cfg(test)]
mod tests;
mod worked;

pub use standing::piles_stand;
pub use worked::worked_piles;
