//! Bindingclay for C: a kernel behind a handle, and one function for each of its calls.
//!
//! The function of a call takes the handle, makes one step of the kernel, or none where a number says nothing that a call could take,
//! and answers in sixteen bytes. What it says is what the flat machine of `pl_model` replies to this step, from every state for which the
//! kernel stands. That the handle is one that `bindingclay_open_words` gave, that it is given to one function at a time, and that the kernel is
//! left alone between them, is up to whoever calls.
#![tactic(auto)]

mod bytes;
mod descriptors;
mod facts;
mod handle;
mod laws;
mod layer;
mod life;
mod limits;
mod names;
mod polls;
mod recording;
mod waiting;
