ghost use Rattle.std.specs.Prelude.{◌≡◌, ◌≤◌, ◌+◌, ◌∷◌, ◌++◌, [], not, nat_lt, IfOk, OnOk, OnErr, Some, None, true};
ghost use Rattle.std.specs.Prelude.{false, length};
ghost use Rattle.pt_fs.specs.Jobs.{StartAll};
ghost use Rattle.pt_script.specs.Script.{may_stand, added, nothing, max_places, is_before_jobs, last_fault, is_later};
ghost use Rattle.pt_script.specs.Scan.{allowed, with_allowed, kept_lines, scan_of};

use crate::jobs::job_of;
use crate::line::{Line, PlannedFault, read_line};
use crate::settings::Settings;
use pt_fs::Job;
use pt_text::Parts;
use pt_tree::{TreeLine, TreeSpec};
use pt_words::{LineError, Places};
use std::alloc::{AllocError, Global};
use std::marker::Model;

/// How many jobs a script has at most.
pub const MAX_JOBS: usize = 65_536;

/// How many places its schedule has at most.
pub const MAX_PLACES: usize = 1_048_576;

/// A script as far as its lines go.
#[derive(Drop)]
pub struct Lines {
    settings: Settings,
    tree: Vec<TreeLine>,
    faults: Vec<PlannedFault>,
    jobs: Vec<Job>,
    order: Places,
    ended: bool,
}

impl Model for Lines {
    ghost use Rattle.pt_fs.specs.Jobs.{StartAll};
    ghost use Rattle.pt_script.specs.Script.{Begun};

    ghost Value = { Begun };

    ghost view = { λ lines. record {
      settings = lines.settings;
      tree = lines.tree.items;
      faults = lines.faults.items;
      jobs = lines.jobs.items;
      order = lines.order;
      ended = lines.ended;
    } };

    ghost invariant = { λ lines. StartAll lines.jobs.items };
}

// Puts an item behind others, or lets it go.
fn push_item<T: Drop>(items: &mut Vec<T>, item: T) -> Result<(), AllocError>
    ensures ok { OnOk result (items.new.items ≡ items.old.items ++ item ∷ []) }
    ensures err { OnErr result (items.new.items ≡ items.old.items) }
    ensures few { length items.new.items ≤ length items.old.items + 1 }
{
    items.push(item)?;
    Ok(())
}

impl Lines {
    pub fn new(alloc: Global) -> Self
        ensures { result ≡ nothing }
    {
        Lines {
            settings: Settings::none(alloc),
            tree: Vec::new(alloc),
            faults: Vec::new(alloc),
            jobs: Vec::new(alloc),
            order: Places::new(alloc),
            ended: false,
        }
    }

    pub fn is_ended(&self) -> bool
        ensures { result ≡ self.now.ended }
    {
        self.ended
    }

    /// Whether the line may stand behind these, the rules of trees aside.
    pub fn may_take(&self, line: &Line) -> bool
        ensures { result ≡ may_stand self.now line.now }
    {
        match line {
            Line::Set(setting) => self.tree.is_empty() && self.settings.may_set(setting),
            Line::Tree(_) => !self.ended && self.faults.is_empty() && self.is_before_jobs(),
            Line::Fault(fault) => {
                !self.ended
                    && !self.tree.is_empty()
                    && self.is_before_jobs()
                    && self.is_later(*fault)
            }
            Line::Job(_) => {
                !self.ended
                    && !self.tree.is_empty()
                    && self.order.is_empty()
                    && self.jobs.len() < MAX_JOBS
            }
            Line::Order(places) => {
                !self.ended
                    && !self.tree.is_empty()
                    && !places.is_empty()
                    && self.has_place_for(places.len())
            }
            Line::End => !self.ended && !self.tree.is_empty(),
        }
    }

    // Whether no job and no place of the schedule stands yet.
    fn is_before_jobs(&self) -> bool
        ensures { result ≡ is_before_jobs self.now }
    {
        self.jobs.is_empty() && self.order.is_empty()
    }

    // Whether the fault's call comes behind those that are to fail already.
    fn is_later(&self, fault: PlannedFault) -> bool
        ensures { result ≡ is_later (last_fault self.now.faults) fault }
    {
        match self.faults.last() {
            None => true,
            Some(last) => last.call < fault.call,
        }
    }

    // Whether so many places may stand behind those of the schedule.
    fn has_place_for(&self, count: usize) -> bool
        ensures { result ≡ not (nat_lt max_places (length self.now.order + count)) }
    {
        let held = self.order.len();
        held <= MAX_PLACES && count <= MAX_PLACES - held
    }

    /// Puts a line behind these.
    pub fn add(&mut self, line: Line) -> Result<(), AllocError>
        ensures ok { OnOk result (self.new ≡ added self.old line) }
        ensures err { OnErr result (self.new ≡ self.old) }
        ensures few { kept_lines self.new ≤ kept_lines self.old + 1 }
    {
        match line {
            Line::Set(setting) => self.settings.add(setting),
            Line::Tree(line) => push_item(&mut self.tree, line),
            Line::Fault(fault) => push_item(&mut self.faults, fault),
            Line::Job(line) => push_item(&mut self.jobs, job_of(self.settings.identity(), line)),
            Line::Order(places) => self.order.append(&places),
            Line::End => {
                self.ended = true;
                Ok(())
            }
        }
    }

    /// What is set, the lines of the tree, the faults, the jobs and the schedule, which takes no memory.
    pub fn into_parts(self) -> (Settings, TreeSpec, Vec<PlannedFault>, Vec<Job>, Places)
        ensures settings { result.0 ≡ self.settings }
        ensures tree { result.1 ≡ self.tree }
        ensures faults { result.2.items ≡ self.faults }
        ensures jobs { result.3.items ≡ self.jobs }
        ensures seats { StartAll result.3.items }
        ensures schedule { result.4 ≡ self.order }
    {
        let tree = TreeSpec::from_vec(self.tree);
        (self.settings, tree, self.faults, self.jobs, self.order)
    }

    // Puts a line behind these, and tells whether it may stand there.
    fn take(&mut self, line: Line) -> Result<bool, AllocError>
        ensures taken { result ≡ Ok true → with_allowed self.old line ≡ Some self.new }
        ensures bad { result ≡ Ok false → with_allowed self.old line ≡ None }
        ensures unchanged { result ≡ Ok false → self.new ≡ self.old }
        ensures err { OnErr result (self.new ≡ self.old) }
        ensures few { kept_lines self.new ≤ kept_lines self.old + 1 }
    {
        if !self.may_take(&line) {
            return Ok(false);
        }
        self.add(line)?;
        Ok(true)
    }

    // Puts the line that a text is behind these, and tells whether it is one and may stand there.
    fn take_text(&mut self, alloc: Global, text: &[u8]) -> Result<bool, AllocError>
        ensures taken { result ≡ Ok true → allowed self.old text.now ≡ Some self.new }
        ensures bad { result ≡ Ok false → allowed self.old text.now ≡ None }
        ensures unchanged { result ≡ Ok false → self.new ≡ self.old }
        ensures err { OnErr result (self.new ≡ self.old) }
        ensures few { kept_lines self.new ≤ kept_lines self.old + 1 }
    {
        match read_line(alloc, text) {
            Ok(line) => self.take(line),
            Err(LineError::Bad) => Ok(false),
            Err(LineError::Memory) => Err(AllocError),
        }
    }
}

/// The lines of a script, and the number of the first bad one, the rules of trees aside.
#[derive(Drop)]
pub struct Scan {
    pub lines: Lines,
    pub bad: Option<u32>,
}

/// Reads the lines of a script up to the first bad one.
pub fn scan_lines(alloc: Global, bytes: &[u8]) -> Result<Scan, AllocError>
    requires { length bytes.now ≤ 16777216 }
    ensures scanned { IfOk result (λ scan. record { begun = scan.lines; bad = scan.bad } ≡ scan_of bytes.now) }
    ensures few { IfOk result (λ scan. kept_lines scan.lines ≤ length bytes.now + 1) }
{
    let mut lines = Lines::new(alloc);
    let mut parts = Parts::lines(bytes);
    let mut number = 1;
    while let Some(text) = parts.next() {
        if text.is_empty() && parts.is_empty() {
            let bad = if lines.is_ended() { None } else { Some(number) };
            return Ok(Scan { lines, bad });
        }
        if !lines.take_text(alloc, text)? {
            let bad = Some(number);
            return Ok(Scan { lines, bad });
        }
        number += 1;
    }
    let bad = Some(number);
    Ok(Scan { lines, bad })
}
