//! Steps, and what they come to where one of them finds no memory and is passed over.
use pl_testing::asked::{Ask, Data, Want};
use pl_testing::sessions::{NEW_KERNEL, Session};
use std::test::Fail;

/// What is asked of a new kernel.
#[derive(Clone, Copy)]
pub(crate) struct Steps {
    /// What a failure calls them.
    pub(crate) name: &'static str,
    /// Each with what it comes to, where all find memory.
    pub(crate) rows: &'static [(Ask, Want)],
    /// The place of each step that takes memory, in order, and what those behind it come to where it finds none.
    pub(crate) passed: &'static [(usize, &'static [Want])],
    /// The names that are there at the end, where all find memory.
    pub(crate) names: &'static [Data],
}

impl Steps {
    /// The steps, where all find memory.
    pub(crate) fn session(&self) -> Session {
        Session {
            name: self.name,
            rows: self.rows,
            names: self.names,
            ..NEW_KERNEL
        }
    }

    /// What a test fails with at the step of the place.
    pub(crate) fn fault(&self, place: usize, what: &str) -> Fail {
        Fail::new(format_args!("of the steps of {} that at place {place} {what}", self.name))
    }

    /// What the steps behind the place come to where the one there finds no memory. It fails where that isn't told of each.
    fn behind(&self, place: usize) -> Result<&'static [Want], Fail> {
        let count = self.rows.len().saturating_sub(place).saturating_sub(1);
        for (passed, wants) in self.passed {
            if *passed == place && wants.len() == count {
                return Ok(*wants);
            }
        }
        Err(self.fault(
            place,
            "finds no memory, and what is wanted behind it isn't told",
        ))
    }

    /// What the step at the place comes to where the one at `passed` finds no memory; none does where that is past the last.
    pub(crate) fn want(&self, place: usize, passed: usize) -> Result<Want, Fail> {
        if place < passed {
            let (_, want) = self.rows.get(place).ok_or("a place past the last step")?;
            return Ok(*want);
        }
        let behind = place.saturating_sub(passed).saturating_sub(1);
        let wants = self.behind(passed)?;
        Ok(*wants.get(behind).ok_or("a place past the last step")?)
    }

    /// How many of the places of steps that take memory are met, in order, where so many were and now the step at this place finds
    /// none. It fails where it is none of them.
    pub(crate) fn met(&self, before: usize, place: usize) -> Result<usize, Fail> {
        self.behind(place)?;
        match self.passed.get(before) {
            Some((next, _)) if *next == place => Ok(before.saturating_add(1)),
            _ => Ok(before),
        }
    }

    /// It fails where more of the places take memory than were met.
    pub(crate) fn are_all_met(&self, met: usize) -> Result<(), Fail> {
        match self.passed.get(met) {
            Some((place, _)) => Err(self.fault(*place, "always finds memory")),
            None => Ok(()),
        }
    }
}
