//! Worked ontologies, with what they state or their first breach: what no clause says, and that calls succeed where memory is there.
#![tactic(auto)]

#[cfg(test)]
mod axioms;
#[cfg(test)]
mod breaches;
#[cfg(test)]
mod editors;
#[cfg(test)]
mod limits;
#[cfg(test)]
mod shown;
