//! What tables of polls ask of a descriptor, and what is found of one.
use pl_model::PollMask;

/// Nothing is asked, or found.
pub const EMPTY: &[PollMask] = &[];

pub const IN: &[PollMask] = &[PollMask::IN];

pub const OUT: &[PollMask] = &[PollMask::OUT];

pub const ERR: &[PollMask] = &[PollMask::ERR];

pub const HUP: &[PollMask] = &[PollMask::HUP];

pub const NVAL: &[PollMask] = &[PollMask::NVAL];

pub const IN_OUT: &[PollMask] = &[PollMask::IN, PollMask::OUT];

pub const IN_HUP: &[PollMask] = &[PollMask::IN, PollMask::HUP];

pub const OUT_ERR: &[PollMask] = &[PollMask::OUT, PollMask::ERR];

/// What is given unasked, and asked for nevertheless.
pub const ERR_HUP_NVAL: &[PollMask] = &[PollMask::ERR, PollMask::HUP, PollMask::NVAL];

pub const ALL: &[PollMask] = &[
    PollMask::IN,
    PollMask::OUT,
    PollMask::ERR,
    PollMask::HUP,
    PollMask::NVAL,
];
