// Tests of headers, of the log manager and of recovery at their edges.
#![tactic(auto)]

#[cfg(test)]
mod chains;
#[cfg(test)]
mod common;
#[cfg(test)]
mod headers;
#[cfg(test)]
mod manager;
#[cfg(test)]
mod recovering;
#[cfg(test)]
mod sizes;
#[cfg(test)]
mod surviving;
