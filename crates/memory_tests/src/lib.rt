// Tests of the two kinds of memory at their edges.
#![tactic(auto)]

#[cfg(test)]
mod common;
#[cfg(test)]
mod laws;
#[cfg(test)]
mod lent;
#[cfg(test)]
mod power;
#[cfg(test)]
mod queue;
#[cfg(test)]
mod shapes;
#[cfg(test)]
mod words;
