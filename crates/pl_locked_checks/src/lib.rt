//! What threads and callers do on a layer.
#![tactic(auto)]

#[cfg(test)]
mod acts;
#[cfg(test)]
mod alone;
#[cfg(test)]
mod asked;
#[cfg(test)]
mod came;
#[cfg(test)]
mod changed;
#[cfg(test)]
mod closing;
#[cfg(test)]
mod left;
#[cfg(test)]
mod parts;
#[cfg(test)]
mod scenes;
#[cfg(test)]
mod storm;
#[cfg(test)]
mod threads;
