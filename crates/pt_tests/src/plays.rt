use pt_frame::{ActReply, Finish, Want};
use pt_host::{Bytes, Caps, Edit, Errno, Fd, HostReply, HostSeat, HostValue, ObjIds, Stat, Time};
use pt_iface::{Context, Request};
use pt_job::AnyJob;
use pt_maps::IdMap;
use pt_req::{Config, Plan};
use pt_session::{EventRefusal, EventReply, GivenNumber, Negotiated, Resolved, RowForm};
use pt_show::Text;
use std::alloc::Global;
use std::mem::forget;
use std::process::Abort;

/// What a job does, or what befalls it, where it stands.
#[derive(Clone, Copy)]
pub enum Step<'a> {
    /// It wants the act of this text, and is told this.
    Acts(&'a [u8], Told),
    /// It wants the act of this text, and is told nothing yet.
    Wants(&'a [u8]),
    /// It is cut.
    Cut,
}

/// What an act is answered, by the tables or by the host.
#[derive(Clone, Copy)]
pub enum Told {
    Began,
    /// The number is that of a directory, kept as descriptor 4.
    Resolved,
    /// A handle's row, and its descriptor.
    Pinned(u64, u32),
    Absent,
    Claimed(u64),
    Taken,
    Given,
    Drawn(u64),
    /// So many descriptors were put on the closing list.
    Done(u64),
    /// The tables found no memory.
    NoMemory,
    Unit,
    Fd(u32),
    /// The object is a file.
    Stat,
    Count(u64),
    Bytes(&'static [u8]),
    Refused(Errno),
    Fault(Errno),
}

impl Told {
    fn by_tables(reply: EventReply) -> ActReply {
        ActReply::Event(reply)
    }

    fn by_host(value: HostValue) -> ActReply {
        ActReply::Host(HostReply::Ok(value))
    }

    /// Where there is no memory for the bytes, the host had none.
    fn bytes(alloc: Global, bytes: &[u8]) -> ActReply {
        match Bytes::from_slice(alloc, bytes) {
            Ok(bytes) => Told::by_host(HostValue::Bytes(bytes)),
            Err(_) => ActReply::Host(HostReply::NoMemory),
        }
    }

    pub fn reply(self, alloc: Global) -> ActReply {
        match self {
            Told::Began => Told::by_tables(EventReply::Began {
                era: 1,
                negotiated: Negotiated::NONE,
            }),
            Told::Resolved => Told::by_tables(resolved()),
            Told::Pinned(row, number) => Told::by_tables(EventReply::Pinned {
                row,
                fd: Fd(number),
            }),
            Told::Absent => Told::by_tables(EventReply::Absent),
            Told::Claimed(number) => Told::by_tables(EventReply::Claimed(GivenNumber {
                number,
                class: 0,
            })),
            Told::Taken => Told::by_tables(EventReply::Taken),
            Told::Given => Told::by_tables(EventReply::Given),
            Told::Drawn(number) => Told::by_tables(EventReply::Drawn { number }),
            Told::Done(closings) => Told::by_tables(EventReply::Done { closings }),
            Told::NoMemory => Told::by_tables(EventReply::Refused(EventRefusal::Memory)),
            Told::Unit => Told::by_host(HostValue::Unit),
            Told::Fd(number) => Told::by_host(HostValue::Fd(Fd(number))),
            Told::Stat => Told::by_host(HostValue::Stat(a_stat())),
            Told::Count(count) => Told::by_host(HostValue::Count(count)),
            Told::Bytes(bytes) => Told::bytes(alloc, bytes),
            Told::Refused(errno) => ActReply::Host(HostReply::Refused(errno)),
            Told::Fault(errno) => ActReply::Host(HostReply::Fault(errno)),
        }
    }
}

fn resolved() -> EventReply {
    EventReply::Resolved(Resolved {
        row: 0,
        form: RowForm::File(Fd(4)),
        ids: ObjIds {
            ino: 1,
            dev: 1,
            mnt_id: 1,
        },
        mode: 16877,
        class: 0,
    })
}

fn a_stat() -> Stat {
    let never = Time { sec: 0, nsec: 0 };
    Stat {
        ids: ObjIds {
            ino: 2,
            dev: 1,
            mnt_id: 1,
        },
        mode: 33188,
        nlink: 1,
        uid: 0,
        gid: 0,
        rdev: 0,
        size: 2,
        blksize: 4096,
        blocks: 1,
        atime: never,
        mtime: never,
        ctime: never,
    }
}

/// Whether a report prints the value so.
pub fn has_text<T: Text>(alloc: Global, value: &T, wanted: &[u8]) -> bool {
    let mut text = Vec::new(alloc);
    value.write(&mut text).is_ok() && text.as_slice() == wanted
}

/// A job whose acts are compared, and whose replies are handed in by hand.
pub struct Played {
    job: AnyJob,
    plan: Plan,
    seat: HostSeat,
}

/// The plan that no setting changes.
pub fn a_plan(alloc: Global) -> Option<Plan> {
    match Config::new(alloc) {
        Ok(config) => Some(Plan {
            config,
            uid_map: IdMap::empty(alloc),
            gid_map: IdMap::empty(alloc),
            capability: None,
        }),
        Err(_) => None,
    }
}

impl Played {
    fn new(job: AnyJob, plan: Plan) -> Played {
        let seat = HostSeat::new(0, 0, Caps::ALL);
        Played { job, plan, seat }
    }

    pub fn start(alloc: Global, request: Request) -> Option<Played> {
        Played::start_where(alloc, request, None)
    }

    /// Where rules map the attribute of capabilities to this name, if to any.
    pub fn start_where(
        alloc: Global,
        request: Request,
        capability: Option<Bytes>,
    ) -> Option<Played> {
        let mut plan = a_plan(alloc)?;
        plan.capability = capability;
        Played::start_by(alloc, plan, request)
    }

    /// Where the guest may use extended attributes.
    pub fn start_with_xattr(alloc: Global, request: Request) -> Option<Played> {
        let mut plan = a_plan(alloc)?;
        plan.config.xattr = true;
        Played::start_by(alloc, plan, request)
    }

    fn start_by(alloc: Global, plan: Plan, request: Request) -> Option<Played> {
        let who = Context { uid: 0, gid: 0 };
        match AnyJob::start(alloc, &plan, who, request) {
            Ok(job) => Some(Played::new(job, plan)),
            Err(request) => {
                forget(request);
                None
            }
        }
    }

    /// A job that takes the name `/a` away.
    pub fn edit(alloc: Global) -> Option<Played> {
        let plan = a_plan(alloc)?;
        match Bytes::from_slice(alloc, b"/a") {
            Ok(path) => Some(Played::new(AnyJob::edit(Edit::Unlink { path }), plan)),
            Err(_) => None,
        }
    }

    /// Whether the job wants the act of this text.
    fn wants(&self, alloc: Global, wanted: &[u8]) -> bool {
        match self.job.want(&self.plan, &self.seat) {
            Want::Step(act) => has_text(alloc, &act, wanted),
            Want::Finished => false,
        }
    }

    /// Hands in a reply, and tells whether the job was at a step that leaves its seat as it is.
    fn take(&mut self, reply: ActReply) -> bool {
        let is_at_step = !self.job.is_finished() && !self.job.restoring();
        if is_at_step {
            self.job.take(&self.plan, reply, &self.seat);
        }
        is_at_step && self.job.lost().is_none()
    }

    /// Cuts the job where it stands, and tells whether that was before its end.
    fn cut(&mut self) -> bool {
        let is_at_step = !self.job.is_finished();
        if is_at_step {
            self.job.cut();
        }
        is_at_step
    }

    /// Whether the job makes this step.
    fn makes(&mut self, alloc: Global, step: Step<'_>) -> bool {
        match step {
            Step::Acts(wanted, told) => self.wants(alloc, wanted) && self.take(told.reply(alloc)),
            Step::Wants(wanted) => self.wants(alloc, wanted),
            Step::Cut => self.cut(),
        }
    }

    /// The first of these steps that the job does not make.
    fn stops_in(&mut self, alloc: Global, steps: &[Step<'_>]) -> Option<usize> {
        for (place, step) in steps.iter().enumerate() {
            if !self.makes(alloc, *step) {
                return Some(place);
            }
        }
        None
    }

    /// The first of these parts that the job does not make, and the step of it.
    fn stops_at(&mut self, alloc: Global, parts: &[&[Step<'_>]]) -> Option<(usize, usize)> {
        for (part, steps) in parts.iter().enumerate() {
            if let Some(place) = self.stops_in(alloc, steps) {
                return Some((part, place));
            }
        }
        None
    }

    /// Plays these parts one behind the other, and tells whether the job ends with the answer of this text. Where it
    /// stops before, the test ends here, so that no job is ever let go: the proof of that takes minutes.
    fn ends_so<R: Abort>(
        mut self,
        rt: &R,
        alloc: Global,
        parts: &[&[Step<'_>]],
        wanted: &[u8],
    ) -> bool {
        let stop = self.stops_at(alloc, parts);
        assert_eq!(rt; stop, None, "the part and the step that it does not make");
        assert!(rt; self.job.is_finished(), "it goes on");
        let Played {
            job,
            plan: _plan,
            seat: _seat,
        } = self;
        let ended = job.finish();
        let ends_so = matches!(&ended, Finish::Answer(answer) if has_text(alloc, answer, wanted));
        forget(ended);
        ends_so
    }
}

/// Whether a job makes all steps of these parts, and then ends with the answer of this text.
pub fn ends_so<R: Abort>(
    rt: &R,
    alloc: Global,
    job: Option<Played>,
    parts: &[&[Step<'_>]],
    answer: &[u8],
) -> bool {
    match job {
        Some(job) => job.ends_so(rt, alloc, parts, answer),
        None => false,
    }
}
