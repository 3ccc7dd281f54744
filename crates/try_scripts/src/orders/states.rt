use crate::orders::plain::{Given, LeftOut, agrees};
use crate::orders::run::report_of;
use crate::orders::whole::{Job, Whole};
use std::alloc::{AllocError, Global};
use std::collections::HashMap;
use std::collections::hash_map::Entry;

/// One of the beginnings of orders that lead to a state.
#[derive(Drop)]
struct Beginning {
    /// Its places.
    places: Vec<u8>,
    /// The report of the order that begins so, and then takes job after job.
    report: Vec<u8>,
    /// How many beginnings lead to the state.
    orders: u64,
}

/// The states behind so many steps, each as what is told of it.
type Layer = HashMap<Vec<u8>, Beginning>;

/// What came of a walk through every order.
#[derive(Clone, Copy)]
pub struct Walked {
    pub states: u64,
    pub orders: u64,
    /// How many orders end otherwise than by a plain count.
    pub others: u64,
    /// The steps of the ends that take counts back.
    pub given_back: LeftOut,
    pub forgotten: LeftOut,
}

// Where so many lines of the text end.
fn end_of_lines(text: &[u8], count: usize) -> usize {
    let mut end: usize = 0;
    for line in text.split_inclusive(|byte| *byte == b'\n').take(count) {
        end = end.saturating_add(line.len());
    }
    end
}

fn has_line(text: &[u8], front: &[u8]) -> bool {
    text.split_inclusive(|byte| *byte == b'\n')
        .any(|line| line.starts_with(front))
}

fn push_steps(key: &mut Vec<u8>, steps: &[u8], job: Job<'_>) -> Result<(), AllocError> {
    for line in steps.split_inclusive(|byte| *byte == b'\n') {
        if line.starts_with(job.step) {
            key.extend_from_slice(line)?;
        }
    }
    Ok(())
}

// What is told of the state behind these steps: each job's own steps, what they put in and gave, and the rest of the
// report.
fn key_of(
    alloc: Global,
    whole: &Whole<'_>,
    steps: &[u8],
    rest: &[u8],
) -> Result<Vec<u8>, AllocError> {
    let mut key = Vec::new(alloc);
    for job in whole.jobs.as_slice() {
        push_steps(&mut key, steps, *job)?;
    }
    Given::by_steps(alloc, steps, None)?.write(&mut key)?;
    key.extend_from_slice(rest)?;
    Ok(key)
}

impl Beginning {
    fn new(
        alloc: Global,
        whole: &Whole<'_>,
        places: Vec<u8>,
        orders: u64,
    ) -> Result<Self, AllocError> {
        let report = report_of(alloc, whole.script(alloc, places.as_slice())?)?;
        Ok(Beginning {
            places,
            report,
            orders,
        })
    }

    // The steps that were made, and the rest of the report.
    fn parts(&self, made: usize) -> (&[u8], &[u8]) {
        let report = self.report.as_slice();
        let end = end_of_lines(report, made).min(report.len());
        report.split_at(end)
    }

    // With one more step of this job, which has one in the rest.
    fn longer(
        &self,
        alloc: Global,
        whole: &Whole<'_>,
        rest: &[u8],
        job: Job<'_>,
    ) -> Result<Self, AllocError> {
        let mut places = self.places.as_slice().to_vec(alloc)?;
        places.extend_from_slice(job.place)?;
        if !rest.starts_with(job.step) {
            return Beginning::new(alloc, whole, places, self.orders);
        }
        // So the order went on by itself.
        Ok(Beginning {
            places,
            report: self.report.as_slice().to_vec(alloc)?,
            orders: self.orders,
        })
    }

    // Puts the state that it leads to into the layer, or adds it to the one that is there.
    fn reach(
        self,
        alloc: Global,
        whole: &Whole<'_>,
        made: usize,
        layer: &mut Layer,
    ) -> Result<(), AllocError> {
        let (steps, rest) = self.parts(made);
        match layer.entry(key_of(alloc, whole, steps, rest)?)? {
            Entry::Occupied(entry) => {
                let there = entry.into_mut();
                there.orders = there.orders.saturating_add(self.orders);
            }
            Entry::Vacant(entry) => {
                entry.insert(self);
            }
        }
        Ok(())
    }
}

impl Walked {
    // Goes one step on from each state of a layer. Orders without a step left end there.
    fn go_on(
        &mut self,
        alloc: Global,
        whole: &Whole<'_>,
        made: usize,
        layer: &Layer,
    ) -> Result<Layer, AllocError> {
        let mut next = HashMap::new(alloc);
        for beginning in layer.values() {
            self.states = self.states.saturating_add(1);
            let (_, rest) = beginning.parts(made);
            let mut ends = true;
            for job in whole.jobs.as_slice() {
                if has_line(rest, job.step) {
                    ends = false;
                    let longer = beginning.longer(alloc, whole, rest, *job)?;
                    longer.reach(alloc, whole, made.saturating_add(1), &mut next)?;
                }
            }
            if ends {
                self.count_end(alloc, whole.slots, beginning)?;
            }
        }
        Ok(next)
    }

    fn count_end(&mut self, alloc: Global, slots: u64, end: &Beginning) -> Result<(), AllocError> {
        let report = end.report.as_slice();
        self.orders = self.orders.saturating_add(end.orders);
        if !agrees(alloc, report, slots, None)? {
            self.others = self.others.saturating_add(end.orders);
        }
        self.given_back.count(alloc, report, slots, b"GiveBack")?;
        self.forgotten.count(alloc, report, slots, b"Forget")
    }
}

/// Walks through every order of the steps of three jobs, layer by layer: beginnings that lead to one state are taken
/// together.
pub fn walk(alloc: Global, whole: &Whole<'_>) -> Result<Walked, AllocError> {
    let none = LeftOut {
        steps: 0,
        agreeing: 0,
    };
    let mut walked = Walked {
        states: 0,
        orders: 0,
        others: 0,
        given_back: none,
        forgotten: none,
    };
    let mut layer = HashMap::new(alloc);
    Beginning::new(alloc, whole, Vec::new(alloc), 1)?.reach(alloc, whole, whole.begun, &mut layer)?;
    for made in whole.begun..usize::MAX {
        if layer.is_empty() {
            break;
        }
        layer = walked.go_on(alloc, whole, made, &layer)?;
    }
    Ok(walked)
}
