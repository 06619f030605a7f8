// Tests of the reader of rule files.
#![tactic(auto)]

#[cfg(test)]
mod bodies;
#[cfg(test)]
mod build;
#[cfg(test)]
mod framing;
#[cfg(test)]
mod inputs;
#[cfg(test)]
mod limits;
#[cfg(test)]
mod ranges;
#[cfg(test)]
mod values;
