//! What the kernel answers where a request for memory is refused.
#![tactic(auto)]

#[cfg(test)]
mod copies;
#[cfg(test)]
mod full;
#[cfg(test)]
mod large;
#[cfg(test)]
mod made_again;
#[cfg(test)]
mod passed_over;
#[cfg(test)]
mod scarce;
#[cfg(test)]
mod steps;
#[cfg(test)]
mod tables;
