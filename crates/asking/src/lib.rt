// What `checks` and `patterns` are asked about: an envelope, by its four numbers or by a clock of a sheet, and a pattern in figures.
#![tactic(auto)]

mod clock;
mod figures;
mod naming;

pub use clock::clock_envelope;
pub use figures::FIGURES;
pub use naming::Naming;
