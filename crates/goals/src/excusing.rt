// Excusing duties of a goal.
ghost use Rattle.std.specs.Prelude.{◌≡◌, [], IfOk};
ghost use Rattle.goals.specs.Naming.{names};
ghost use Rattle.goals.specs.Excusing.{excused, Excuses, number};
ghost use Rattle.goals.specs.Laws.{excused_lawful};

use crate::excused::Excused;
use crate::goal::Goal;
use crate::refusal::NotExcused;
use cubes::cube::Cube;
use std::alloc::{AllocError, Global};

impl NotExcused {
    // The number by which the shop knows the refusal.
    pub fn number(&self) -> u16
        ensures { result ≡ number self.now }
    {
        match self {
            NotExcused::NoSuchDuty => 29,
            NotExcused::TooMany => 35,
        }
    }
}

// Whether the list names the duty.
fn is_named(duties: &[u32], duty: u32) -> bool
    ensures { result ≡ names duties.now duty }
{
    duties.contains(&duty)
}

impl<G: Goal> Excused<G> {
    // The goal with nothing excused. All memory that it ever needs is claimed here.
    pub fn new(heap: Global, goal: G) -> Result<Excused<G>, AllocError>
    where
        G: Drop,
        ensures { IfOk result (λ e. (e.goal ≡ goal) × (e.duties.items ≡ [])) }
    {
        let duties = Vec::with_capacity(heap, 64)?;
        Ok(Excused { goal, duties })
    }

    // Makes a duty no longer wanted; excusing one twice is accepted.
    pub fn excuse(&mut self, duty: u32) -> Result<(), NotExcused>
        ensures answer { Excuses (G.means self.old.goal) self.old.duties.items duty self.new.duties.items result }
        ensures same { self.new.goal ≡ self.old.goal }
    {
        if duty >= self.goal.duties() {
            return Err(NotExcused::NoSuchDuty);
        }
        if is_named(self.duties.as_slice(), duty) {
            return Ok(());
        }
        if self.duties.len() >= 64 {
            return Err(NotExcused::TooMany);
        }
        self.duties.push_reserved(duty);
        Ok(())
    }
}

impl<G: Goal> Goal for Excused<G> {
    ghost means = { λ e. excused (G.Goal.means e.goal) e.duties.items };

    ghost lawful = { λ x. excused_lawful (G.Goal.means x.goal) x.duties.items (G.Goal.lawful x.goal) };

    fn inputs(&self) -> u8 {
        self.goal.inputs()
    }

    fn duties(&self) -> u32 {
        self.goal.duties()
    }

    fn wanted(&self, duty: u32) -> bool {
        self.goal.wanted(duty) & !is_named(self.duties.as_slice(), duty)
    }

    fn covers(&self, cube: Cube, duty: u32) -> bool {
        self.goal.covers(cube, duty)
    }

    fn mark(&self, cube: Cube, marks: &mut [bool]) {
        self.goal.mark(cube, marks)
    }
}
